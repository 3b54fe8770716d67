//! The operations of a plan, and what gives them one after another.

ghost use Rattle.std.specs.Prelude.{◌≡◌, ℕ, ◌+◌, ◌<◌, ◌≤◌};
ghost use Rattle.knx_model.specs.Operations.{piece_octets};
ghost use Rattle.knx_model.specs.Plans.{Plan, Over, IsHead, IsNoted, followed};

use crate::frames::ApduOctets;

/// What a plan expects of an operation.
#[derive(Debug, Drop, PartialEq, Eq)]
pub enum Expect {
    /// No answer but the acknowledgement.
    AckOnly,
    /// Just these octets.
    Is(ApduOctets),
    /// Any answer of the fitting response service, which is told to the plan.
    Note,
}

/// An operation of a plan.
#[derive(Debug, Drop, PartialEq, Eq)]
pub struct Op {
    /// A whole APDU with transport bits 0.
    pub apdu: ApduOctets,
    pub expect: Expect,
}

/// The operations of a plan in order. What follows an operation whose answer is noted depends on that answer, so a plan listens.
pub trait PlanSource: Drop {
    /// How many operations there are, by what was noted.
    ghost count: { Self → ℕ };

    /// The plan from an operation on, by what was noted. Each operation has its place for its number. From one that is passed over on,
    /// the plan is that from the next one on, so that `left k ≡ left (k + 1)`; no plan here passes over one, since `op` gives each.
    ghost left: { Self → ℕ → Plan };

    /// How many operations there are.
    fn len(&self) -> u32
        ensures count { result ≡ count self.now }
        ensures over { (k : ℕ) → count self.now ≤ k → left self.now k ≡ Over };

    /// The k-th operation, from 0 on. It takes no memory.
    fn op(&self, k: u32) -> Op
        requires { k < count self.now }
        ensures { IsHead k result.apdu result.expect (left self.now k) (left self.now (k + 1)) };

    /// Notes the answer that came to the k-th operation. Where that one isn't noted, nothing changes.
    fn note(&mut self, k: u32, got: &[u8])
        ensures noted { IsNoted (left self.old k) → left self.new (k + 1) ≡ followed (left self.old k) got.now }
        ensures before { (j : ℕ) → j ≤ k → left self.new j ≡ left self.old j }
        ensures ignored { ¬ IsNoted (left self.old k) → (j : ℕ) → left self.new j ≡ left self.old j };
}

/// How many octets of a list one memory service carries.
#[derive(Clone, Copy, Debug, Drop, PartialEq, Eq)]
pub enum PieceSize {
    /// 12: what each device takes.
    Twelve,
    /// 60: what a device takes that takes extended frames.
    Sixty,
}

impl PieceSize {
    /// The number of octets.
    pub fn octets(self) -> u8
        ensures { result ≡ piece_octets self }
    {
        match self {
            PieceSize::Twelve => 12,
            PieceSize::Sixty => 60,
        }
    }
}
