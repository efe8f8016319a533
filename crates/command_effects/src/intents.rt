//! The properties that a macro's run sets.
ghost use Rattle.std.specs.Prelude.{◌≡◌, ◌≤◌, length, IfOk, OnOk, None, unwrap_or};
ghost use Rattle.macro_eval.specs.Intents.{IsSettable};
ghost use Rattle.tokens.specs.Properties.{value_limit};
ghost use Rattle.command_effects.specs.Allowed.{MaySet};
ghost use Rattle.command_effects.specs.MacroEffects.{with_intent, with_intents as with_intents_lem};
ghost use Rattle.command_effects.specs.Setting.{intent_rule, MaySetAll};

use crate::effects::told;
use macro_eval::{Intent, Intents};
use names::{Memory, SeatNo};
use tokens::PropFault;
use world::Scene;

fn set_intent(scene: &mut Scene, intent: &Intent) -> Result<(), Memory>
    requires room { MaySet scene.old intent.now.id intent.now.class intent.now.name }
    requires short { length intent.now.value ≤ value_limit }
    ensures { OnOk result (scene.new ≡ with_intent intent.now scene.old) }
{
    let value = intent.value.share()?;
    match scene.set_prop(intent.id, intent.class, intent.name, value) {
        Ok(()) => Ok(()),
        Err(PropFault::Memory) => Err(Memory),
        Err(PropFault::PropertyLimit) => unreachable!(),
    }
}

/// Sets the property, which the seat may set.
#[tactic(auto, using(crate::proofs::IntentLemmas::may_try))]
fn set_allowed(scene: &mut Scene, seat: SeatNo, intent: &Intent) -> Result<(), Memory>
    requires settable { IsSettable intent.now }
    requires rule { intent_rule scene.old seat intent.now ≡ None }
    ensures { OnOk result (scene.new ≡ with_intent intent.now scene.old) }
{
    let _told = (told(scene), seat);
    set_intent(scene, intent)
}

/// The scene once all properties that a run of the seat means to set are set, in order; none, where there is none to set.
#[tactic(auto, using(crate::proofs::IntentLemmas::next_may, crate::proofs::IntentLemmas::set_ends))]
pub(crate) fn with_intents(
    scene: &Scene,
    seat: SeatNo,
    intents: &Intents,
) -> Result<Option<Scene>, Memory>
    requires { MaySetAll scene.now seat intents.now }
    ensures { IfOk result (λ after. unwrap_or after scene.now ≡ with_intents_lem intents.now scene.now) }
{
    let list = intents.intents();
    if list.is_empty() {
        return Ok(None);
    }
    let mut after = scene.copy()?;
    for intent in list {
        set_allowed(&mut after, seat, intent)?;
    }
    Ok(Some(after))
}
