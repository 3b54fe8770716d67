//! Which operation of which object stands at a number of a plan. It is computed from how many operations each object has.

ghost use Rattle.std.specs.Prelude.{◌≡◌, ◌+◌, ◌<◌, ◌≤◌, length};
ghost use Rattle.knx_model.specs.Device.{Fits, capacity};
ghost use Rattle.knx_model.specs.LoadPlan.{list_of};
ghost use Rattle.knx_model.specs.Operations.{piece_count};
ghost use Rattle.download_plan.specs.Step.{share_of, share_before, all_shares, load_share, check_share};

use knx_model::{Image, LoadableObject, PieceSize};

/// How many operations each object has.
#[derive(Clone, Copy)]
pub struct Shares {
    pub addr: u32,
    pub assoc: u32,
    pub objs: u32,
    pub params: u32,
}

/// An operation of one object, by its number there.
#[derive(Clone, Copy)]
pub struct Place {
    pub object: LoadableObject,
    pub number: u32,
}

/// The list of an object.
pub fn list_of(image: &Image, object: LoadableObject) -> &[u8]
    requires { Fits image.now }
    ensures value { result.now ≡ list_of image.now object }
    ensures room { length result.now ≤ capacity object }
    ensures bound { length result.now ≤ 0x2000 }
{
    match object {
        LoadableObject::AddressTable => image.addr.as_slice(),
        LoadableObject::AssociationTable => image.assoc.as_slice(),
        LoadableObject::GroupObjects => image.objs.as_slice(),
        LoadableObject::Application => image.params.as_slice(),
    }
}

/// How many pieces a list has.
#[tactic(auto, unfolding(knx_model::specs::Operations::piece_count))]
pub fn piece_count(size: PieceSize, list: &[u8]) -> u32
    requires { length list.now ≤ 0x2000 }
    ensures value { result ≡ piece_count size list.now }
    ensures bound { result ≤ 683 }
{
    match size {
        PieceSize::Twelve => list.len().div_ceil(12) as u32,
        PieceSize::Sixty => list.len().div_ceil(60) as u32,
    }
}

fn load_share(image: &Image, size: PieceSize, object: LoadableObject) -> u32
    requires { Fits image.now }
    ensures value { result ≡ load_share size object (list_of image.now object) }
    ensures bound { result ≤ 0x1000 }
{
    5 + 2 * piece_count(size, list_of(image, object))
}

fn check_share(image: &Image, size: PieceSize, object: LoadableObject) -> u32
    requires { Fits image.now }
    ensures value { result ≡ check_share size object (list_of image.now object) }
    ensures bound { result ≤ 0x1000 }
{
    let list = list_of(image, object);
    let ends = if list.len() < object.capacity() as usize {
        1
    } else {
        0
    };
    2 + piece_count(size, list) + ends
}

/// How many operations load each object.
pub fn load_shares(image: &Image, size: PieceSize) -> Shares
    requires { Fits image.now }
    ensures addr { result.addr ≡ load_share size LoadableObject.AddressTable image.now.addr }
    ensures assoc { result.assoc ≡ load_share size LoadableObject.AssociationTable image.now.assoc }
    ensures objs { result.objs ≡ load_share size LoadableObject.GroupObjects image.now.objs }
    ensures params { result.params ≡ load_share size LoadableObject.Application image.now.params }
    ensures bound { all_shares result ≤ 0x4000 }
{
    Shares {
        addr: load_share(image, size, LoadableObject::AddressTable),
        assoc: load_share(image, size, LoadableObject::AssociationTable),
        objs: load_share(image, size, LoadableObject::GroupObjects),
        params: load_share(image, size, LoadableObject::Application),
    }
}

/// How many operations check each object.
pub fn check_shares(image: &Image, size: PieceSize) -> Shares
    requires { Fits image.now }
    ensures addr { result.addr ≡ check_share size LoadableObject.AddressTable image.now.addr }
    ensures assoc { result.assoc ≡ check_share size LoadableObject.AssociationTable image.now.assoc }
    ensures objs { result.objs ≡ check_share size LoadableObject.GroupObjects image.now.objs }
    ensures params { result.params ≡ check_share size LoadableObject.Application image.now.params }
    ensures bound { all_shares result ≤ 0x4000 }
{
    Shares {
        addr: check_share(image, size, LoadableObject::AddressTable),
        assoc: check_share(image, size, LoadableObject::AssociationTable),
        objs: check_share(image, size, LoadableObject::GroupObjects),
        params: check_share(image, size, LoadableObject::Application),
    }
}

impl Shares {
    /// How many operations all objects have.
    pub fn all(self) -> u32
        requires { all_shares self ≤ 0x4000 }
        ensures { result ≡ all_shares self }
    {
        self.addr + self.assoc + self.objs + self.params
    }

    /// The place of the k-th operation.
    pub fn place_at(self, k: u32) -> Place
        requires { k < all_shares self }
        ensures place { share_before self result.object + result.number ≡ k }
        ensures within { result.number < share_of self result.object }
    {
        let (object, number) = if k < self.addr {
            (LoadableObject::AddressTable, k)
        } else if k - self.addr < self.assoc {
            (LoadableObject::AssociationTable, k - self.addr)
        } else if k - self.addr - self.assoc < self.objs {
            (LoadableObject::GroupObjects, k - self.addr - self.assoc)
        } else {
            (
                LoadableObject::Application,
                k - self.addr - self.assoc - self.objs,
            )
        };
        Place { object, number }
    }
}
