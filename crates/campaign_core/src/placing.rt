//! The change of a view in which a token is put elsewhere.
ghost use Rattle.std.specs.Prelude.{◌≡◌, ◌∷◌, [], IfOk, option_map};
ghost use Rattle.std.specs.List.{find};
ghost use Rattle.std.specs.Option.{option_copied};
ghost use Rattle.view_lines.specs.Lines.{change_line as change_text};
ghost use Rattle.view_marks.specs.Placed.{placed_token as placed_token_lem};
ghost use Rattle.campaign_core.specs.Placing.{change_with as change_with_lem, is_placed, newly_placed as newly_placed_lem, placed_change as placed_change_lem};

use names::{LineText, Memory};
use std::alloc::Global;
use view_lines::change_line;
use view_marks::Placed;
use views::{
    Change, LightTexts, MapChanges, MapViews, SightTexts, Tags, TokenIds, TokenView, TokenViews,
    View, same_token,
};

/// The token of that id, if it is there.
fn token_of<'v>(view: &'v View, placed: &Placed) -> Option<&'v TokenView>
    ensures { option_copied result ≡ find (is_placed placed.now) view.now.tokens }
{
    view.tokens
        .items()
        .iter()
        .find(|token| token.id == placed.id)
}

/// The token once more, standing there if it is the one of that id.
fn placed_token(token: &TokenView, placed: &Placed) -> Result<TokenView, Memory>
    ensures { IfOk result (λ t. t ≡ placed_token_lem placed.now token.now) }
{
    let mut token = token.copy()?;
    if token.id == placed.id {
        token.map = placed.map;
        token.cell = placed.cell;
    }
    Ok(token)
}

/// The token there, where it doesn't stand there.
fn newly_placed(token: &TokenView, placed: &Placed) -> Result<Option<TokenView>, Memory>
    ensures { IfOk result (λ t. t ≡ newly_placed_lem placed.now token.now) }
{
    let now = placed_token(token, placed)?;
    if same_token(token, &now) {
        return Ok(None);
    }
    Ok(Some(now))
}

/// A list of the token.
fn alone(alloc: Global, token: TokenView) -> Result<TokenViews, Memory>
    ensures { IfOk result (λ tokens. tokens ≡ token ∷ []) }
{
    let mut list = Vec::new(alloc);
    if list.push(token).is_err() {
        return Err(Memory);
    }
    Ok(TokenViews { list })
}

/// That token alone is another one.
fn change_with(alloc: Global, token: TokenView) -> Result<Change, Memory>
    ensures { IfOk result (λ change. change ≡ change_with_lem token) }
{
    Ok(Change {
        changed: MapChanges {
            list: Vec::new(alloc),
        },
        fight: None,
        gone: TokenIds {
            list: Vec::new(alloc),
        },
        lights: LightTexts {
            list: Vec::new(alloc),
        },
        maps: MapViews {
            list: Vec::new(alloc),
        },
        sights: SightTexts {
            list: Vec::new(alloc),
        },
        tokens: alone(alloc, token)?,
        unmapped: Tags {
            list: Vec::new(alloc),
        },
    })
}

fn line_with(alloc: Global, token: Option<TokenView>) -> Result<Option<LineText>, Memory>
    ensures { IfOk result (λ line. line ≡ option_map (λ t. change_text (change_with_lem t)) token) }
{
    match token {
        Some(token) => {
            let change = change_with(alloc, token)?;
            Ok(Some(change_line(alloc, &change)?))
        }
        None => Ok(None),
    }
}

/// The change line of a view in which the token of that id comes to stand there, and nothing else changes; none, where it
/// stands there already or isn't in the view.
pub(crate) fn placed_line(
    alloc: Global,
    view: &View,
    placed: &Placed,
) -> Result<Option<LineText>, Memory>
    ensures { IfOk result (λ line. line ≡ option_map change_text (placed_change_lem placed.now view.now)) }
{
    match token_of(view, placed) {
        Some(token) => line_with(alloc, newly_placed(token, placed)?),
        None => Ok(None),
    }
}
