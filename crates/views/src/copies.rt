//! Copies of views and their parts. Each is the same once more, or `Memory` for want of memory.
ghost use Rattle.std.specs.Prelude.{◌≡◌, IfOk};

use crate::lists::{FightList, LightTexts, MapViews, PropTexts, SeatNos, SightTexts, TokenViews};
use crate::view::{FightView, GmPart, MapView, OwnedPart, TokenView, View};
use names::Memory;

impl LightTexts {
    /// The same list once more.
    pub fn copy(&self) -> Result<LightTexts, Memory>
        ensures { IfOk result (λ copy. copy ≡ self.now) }
    {
        let list = Vec::from_slice(*self.list.allocator(), self.items())?;
        Ok(LightTexts { list })
    }
}

impl SightTexts {
    /// The same list once more.
    pub fn copy(&self) -> Result<SightTexts, Memory>
        ensures { IfOk result (λ copy. copy ≡ self.now) }
    {
        let list = Vec::from_slice(*self.list.allocator(), self.items())?;
        Ok(SightTexts { list })
    }
}

impl SeatNos {
    /// The same list once more.
    pub fn copy(&self) -> Result<SeatNos, Memory>
        ensures { IfOk result (λ copy. copy ≡ self.now) }
    {
        let list = Vec::from_slice(*self.list.allocator(), self.items())?;
        Ok(SeatNos { list })
    }
}

impl FightList {
    /// The same list once more.
    pub fn copy(&self) -> Result<FightList, Memory>
        ensures { IfOk result (λ copy. copy ≡ self.now) }
    {
        let list = Vec::from_slice(*self.list.allocator(), self.items())?;
        Ok(FightList { list })
    }
}

impl PropTexts {
    /// The same list once more.
    pub fn copy(&self) -> Result<PropTexts, Memory>
        ensures { IfOk result (λ copy. copy ≡ self.now) }
    {
        let alloc = *self.list.allocator();
        let mut list = Vec::new(alloc);
        for (name, value) in self.items() {
            let value = value.share()?;
            if list.push((*name, value)).is_err() {
                return Err(Memory);
            }
        }
        Ok(PropTexts { list })
    }
}

impl OwnedPart {
    /// The same part once more.
    pub fn copy(&self) -> Result<OwnedPart, Memory>
        ensures { IfOk result (λ copy. copy ≡ self.now) }
    {
        Ok(OwnedPart {
            sight: self.sight,
            light: self.light,
            own: self.own.copy()?,
        })
    }
}

impl GmPart {
    /// The same part once more.
    pub fn copy(&self) -> Result<GmPart, Memory>
        ensures { IfOk result (λ copy. copy ≡ self.now) }
    {
        Ok(GmPart {
            owners: self.owners.copy()?,
            secret: self.secret.copy()?,
            visible: self.visible,
        })
    }
}

fn copy_owned(part: &Option<OwnedPart>) -> Result<Option<OwnedPart>, Memory>
    ensures { IfOk result (λ copy. copy ≡ part.now) }
{
    match part {
        None => Ok(None),
        Some(part) => Ok(Some(part.copy()?)),
    }
}

fn copy_whole(part: &Option<GmPart>) -> Result<Option<GmPart>, Memory>
    ensures { IfOk result (λ copy. copy ≡ part.now) }
{
    match part {
        None => Ok(None),
        Some(part) => Ok(Some(part.copy()?)),
    }
}

impl TokenView {
    /// The same token once more.
    pub fn copy(&self) -> Result<TokenView, Memory>
        ensures { IfOk result (λ copy. copy ≡ self.now) }
    {
        Ok(TokenView {
            id: self.id,
            name: self.name.share()?,
            map: self.map,
            cell: self.cell,
            size: self.size,
            layer: self.layer,
            props: self.props.copy()?,
            owned: copy_owned(&self.owned)?,
            whole: copy_whole(&self.whole)?,
        })
    }
}

impl MapView {
    /// The same map once more.
    pub fn copy(&self) -> Result<MapView, Memory>
        ensures { IfOk result (λ copy. copy ≡ self.now) }
    {
        Ok(MapView {
            name: self.name,
            size: self.size,
            mode: self.mode,
            shown: self.shown,
            seen: self.seen.copy()?,
            exposed: self.exposed.copy()?,
            letters: self.letters.share()?,
        })
    }
}

impl MapViews {
    /// The same list once more.
    pub fn copy(&self) -> Result<MapViews, Memory>
        ensures { IfOk result (λ copy. copy ≡ self.now) }
    {
        let mut list = Vec::new(*self.list.allocator());
        for map in self.items() {
            if list.push(map.copy()?).is_err() {
                return Err(Memory);
            }
        }
        Ok(MapViews { list })
    }
}

impl TokenViews {
    /// The same list once more.
    pub fn copy(&self) -> Result<TokenViews, Memory>
        ensures { IfOk result (λ copy. copy ≡ self.now) }
    {
        let mut list = Vec::new(*self.list.allocator());
        for token in self.items() {
            if list.push(token.copy()?).is_err() {
                return Err(Memory);
            }
        }
        Ok(TokenViews { list })
    }
}

impl FightView {
    /// The same part once more.
    pub fn copy(&self) -> Result<FightView, Memory>
        ensures { IfOk result (λ copy. copy ≡ self.now) }
    {
        Ok(FightView {
            list: self.list.copy()?,
            round: self.round,
            turn: self.turn,
        })
    }
}

/// The same part of a fight once more, or that there is none.
pub fn copy_fight(part: &Option<FightView>) -> Result<Option<FightView>, Memory>
    ensures { IfOk result (λ copy. copy ≡ part.now) }
{
    match part {
        None => Ok(None),
        Some(part) => Ok(Some(part.copy()?)),
    }
}

impl View {
    /// The same view once more.
    pub fn copy(&self) -> Result<View, Memory>
        ensures { IfOk result (λ copy. copy ≡ self.now) }
    {
        Ok(View {
            gm: self.gm,
            lights: self.lights.copy()?,
            sights: self.sights.copy()?,
            maps: self.maps.copy()?,
            tokens: self.tokens.copy()?,
            fight: copy_fight(&self.fight)?,
        })
    }
}
