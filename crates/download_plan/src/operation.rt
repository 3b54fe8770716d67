//! The operations of both plans (ISO/IEC 14543-3-1 and 3-4, application layer and management): a service, and the answer that it expects.

ghost use Rattle.std.specs.Prelude.{◌≡◌, ◌+◌, ◌*◌, ◌<◌, ◌≤◌, [], length};
ghost use Rattle.knx_model.specs.Apdu.{IsApduInRange};
ghost use Rattle.knx_model.specs.declared.frames.tpdu.Apdu.TheVariants.{MemoryRead, MemoryResponse};
ghost use Rattle.knx_model.specs.Device.{capacity, segment_base};
ghost use Rattle.knx_model.specs.Operations.{expecting, acknowledged, event_then, reads_loaded, reads_base, piece, piece_start, piece_count, piece_octets, writes_piece, reads_piece};
ghost use Rattle.download_plan.specs.Step.{op_of, loading_step, checking_step, IsLoadStep, IsCheckStep};

use crate::step::{CheckStep, LoadStep};
use apdu_frames::service_octets;
use knx_model::{
    Apdu, ApduOctets, Expect, LOAD_CONTROL, LoadEvent, LoadState, LoadableObject, Op, PieceSize,
    TABLE_REFERENCE, front,
};
use load_machine::load_octets;

/// A service that expects just this answer.
pub fn asks(service: Apdu, expected: Apdu) -> Op
    requires service { IsApduInRange service }
    requires expected { IsApduInRange expected }
    ensures { result ≡ op_of (expecting service expected) }
{
    Op {
        apdu: service_octets(service),
        expect: Expect::Is(service_octets(expected)),
    }
}

/// A service that expects no answer but the acknowledgement.
fn tells(service: Apdu) -> Op
    requires { IsApduInRange service }
    ensures { result ≡ op_of (acknowledged service) }
{
    Op {
        apdu: service_octets(service),
        expect: Expect::AckOnly,
    }
}

/// A load event to an object, which expects the state after it.
pub fn load(object: LoadableObject, event: LoadEvent, state: LoadState) -> Op
    ensures { result ≡ op_of (event_then object event state) }
{
    let index = object.index();
    asks(
        Apdu::PropertyWrite {
            object: index,
            property: LOAD_CONTROL,
            count: 1,
            start: 1,
            octets: load_octets(event),
        },
        Apdu::PropertyResponse {
            object: index,
            property: LOAD_CONTROL,
            count: 1,
            start: 1,
            octets: ApduOctets::from_slice(&[state.number()]),
        },
    )
}

fn read_base(object: LoadableObject) -> Op
    ensures { result ≡ op_of (reads_base object) }
{
    let index = object.index();
    let base = object.base();
    asks(
        Apdu::PropertyRead {
            object: index,
            property: TABLE_REFERENCE,
            count: 1,
            start: 1,
        },
        Apdu::PropertyResponse {
            object: index,
            property: TABLE_REFERENCE,
            count: 1,
            start: 1,
            octets: ApduOctets::from_slice(&[0, 0, (base >> 8) as u8, (base & 0xFF) as u8]),
        },
    )
}

/// The load state of an object, which is expected to be Loaded.
fn read_state(object: LoadableObject) -> Op
    ensures { result ≡ op_of (reads_loaded object) }
{
    let index = object.index();
    asks(
        Apdu::PropertyRead {
            object: index,
            property: LOAD_CONTROL,
            count: 1,
            start: 1,
        },
        Apdu::PropertyResponse {
            object: index,
            property: LOAD_CONTROL,
            count: 1,
            start: 1,
            octets: ApduOctets::from_slice(&[LoadState::Loaded.number()]),
        },
    )
}

#[tactic(auto, unfolding(knx_model::specs::Operations::piece_start))]
fn piece_start(size: PieceSize, k: u32) -> u32
    requires { k < 683 }
    ensures { result ≡ piece_start size k }
{
    match size {
        PieceSize::Twelve => 12 * k,
        PieceSize::Sixty => 60 * k,
    }
}

#[tactic(auto, unfolding(knx_model::specs::Operations::piece))]
fn octets_from(size: PieceSize, list: &[u8], start: u32, k: u32) -> ApduOctets
    requires start { start ≡ piece_start size k }
    requires room { start ≤ length list.now }
    ensures { result ≡ piece size list.now k }
{
    ApduOctets::from_slice(front(&list[start as usize..], size.octets() as usize))
}

#[tactic(auto, using(crate::proofs::Pieces::piece_some, crate::proofs::Pieces::piece_short))]
fn piece_at(size: PieceSize, list: &[u8], start: u32, k: u32) -> ApduOctets
    requires within { k < piece_count size list.now }
    requires start { start ≡ piece_start size k }
    requires room { start ≤ length list.now }
    ensures value { result ≡ piece size list.now k }
    ensures some { 1 ≤ length result }
    ensures few { length result ≤ 60 }
{
    octets_from(size, list, start, k)
}

#[tactic(auto, using(crate::proofs::Pieces::start_within, crate::proofs::Pieces::count_few))]
fn write_piece(size: PieceSize, object: LoadableObject, list: &[u8], k: u32) -> Op
    requires within { k < piece_count size list.now }
    requires room { length list.now ≤ capacity object }
    requires bound { length list.now ≤ 0x2000 }
    ensures { result ≡ op_of (writes_piece size object list.now k) }
{
    let start = piece_start(size, k);
    tells(Apdu::MemoryWrite {
        address: object.base() + start as u16,
        octets: piece_at(size, list, start, k),
    })
}

#[tactic(auto, using(crate::proofs::Pieces::start_within, crate::proofs::Pieces::count_few))]
fn read_piece(size: PieceSize, object: LoadableObject, list: &[u8], k: u32) -> Op
    requires within { k < piece_count size list.now }
    requires room { length list.now ≤ capacity object }
    requires bound { length list.now ≤ 0x2000 }
    ensures { result ≡ op_of (reads_piece size object list.now k) }
{
    let start = piece_start(size, k);
    let address = object.base() + start as u16;
    let octets = piece_at(size, list, start, k);
    asks(
        Apdu::MemoryRead {
            count: octets.len() as u8,
            address,
        },
        Apdu::MemoryResponse { address, octets },
    )
}

/// One octet after the end of an object's list, which is expected to be refused.
fn read_end(object: LoadableObject, list: &[u8]) -> Op
    requires { length list.now < capacity object }
    ensures { result ≡ op_of (expecting (MemoryRead 1 (segment_base object + length list.now)) (MemoryResponse (segment_base object + length list.now) [])) }
{
    let address = object.base() + list.len() as u16;
    asks(
        Apdu::MemoryRead { count: 1, address },
        Apdu::MemoryResponse {
            address,
            octets: ApduOctets::new(),
        },
    )
}

/// The operation of a step of an object's loading with this list.
pub fn load_step(size: PieceSize, object: LoadableObject, list: &[u8], step: LoadStep) -> Op
    requires within { IsLoadStep (piece_count size list.now) step }
    requires room { length list.now ≤ capacity object }
    requires bound { length list.now ≤ 0x2000 }
    ensures { result ≡ op_of (loading_step size object list.now step) }
{
    match step {
        LoadStep::Unload => load(object, LoadEvent::Unload, LoadState::Unloaded),
        LoadStep::Start => load(object, LoadEvent::StartLoading, LoadState::Loading),
        LoadStep::Allocate => {
            let size = list.len() as u32;
            load(
                object,
                LoadEvent::Allocate { size, fill: 0 },
                LoadState::Loading,
            )
        }
        LoadStep::ReadBase => read_base(object),
        LoadStep::WritePiece(k) => write_piece(size, object, list, k),
        LoadStep::ReadPiece(k) => read_piece(size, object, list, k),
        LoadStep::Complete => load(object, LoadEvent::LoadCompleted, LoadState::Loaded),
    }
}

/// The operation of a step of an object's check for this list.
pub fn check_step(size: PieceSize, object: LoadableObject, list: &[u8], step: CheckStep) -> Op
    requires within { IsCheckStep (piece_count size list.now) object list.now step }
    requires room { length list.now ≤ capacity object }
    requires bound { length list.now ≤ 0x2000 }
    ensures { result ≡ op_of (checking_step size object list.now step) }
{
    match step {
        CheckStep::ReadState => read_state(object),
        CheckStep::ReadBase => read_base(object),
        CheckStep::ReadPiece(k) => read_piece(size, object, list, k),
        CheckStep::ReadEnd => read_end(object, list),
    }
}
