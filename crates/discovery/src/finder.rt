//! What is found of gateways by their responses.

ghost use Rattle.std.specs.Prelude.{◌≡◌, ◌≤◌, ◌↔◌, ℕ, List, [], ◌∷◌, ◌++◌, length, Contains, IfOk, IfSome, IfNone, IsTrue};
ghost use Rattle.discovery.specs.Finding.{Adds, Finds, Tells, TellsNothing};

use crate::about::About;
use crate::find_frame::FindFrame;
use crate::frame::decode;
use crate::inquiry::Inquiry;
use knx_model::NoMemory;
use std::alloc::Global;
use std::marker::Model;

/// The gateways that were found: those that the awaited responses tell of, in the order in which these came, each different one once. Two are
/// the same where they tell the same of themselves.
#[derive(Drop)]
pub struct Finder {
    inquiry: Inquiry,
    /// With room for all that are kept.
    found: Vec<About>,
}

impl Model for Finder {
    ghost use Rattle.std.specs.Prelude.{◌≤◌};
    ghost use Rattle.std.specs.Vec.{vec_capacity, vec_len};
    ghost use Rattle.discovery.specs.Finding.{Finding, most_found};

    ghost Value = { Finding };

    ghost view = { λ f. record { inquiry = f.inquiry; found = f.found.items } };

    ghost invariant = { λ f. (vec_len f.found ≤ most_found) × (most_found ≤ vec_capacity f.found) };
}

impl Finder {
    /// The most gateways that are kept.
    pub const MOST: usize = 64;

    /// Nothing was found yet.
    pub fn new(alloc: Global, inquiry: Inquiry) -> Result<Finder, NoMemory>
        ensures { IfOk result (λ finder. finder ≡ record { inquiry = inquiry; found = [] }) }
    {
        let found = Vec::with_capacity(alloc, Finder::MOST)?;
        Ok(Finder { inquiry, found })
    }

    /// What is asked.
    pub fn inquiry(&self) -> Inquiry
        ensures { result ≡ self.now.inquiry }
    {
        self.inquiry
    }

    /// The gateways that were found, in the order in which they were told first; at most 64.
    pub fn found(&self) -> &[About]
        ensures found { result.now ≡ self.now.found }
        ensures most { length result.now ≤ 64 }
    {
        self.found.as_slice()
    }

    /// Takes a datagram. It takes no memory.
    #[tactic(auto, using(crate::proofs::Finding::finds_no_more, crate::proofs::Finding::finds_added, crate::proofs::Finding::finds_again, crate::proofs::Finding::finds_full, crate::proofs::Adding::adds_full))]
    pub fn take(&mut self, octets: &[u8])
        ensures inquiry { self.new.inquiry ≡ self.old.inquiry }
        ensures adds { Adds self.old.inquiry octets.now self.old.found self.new.found }
        ensures finds { (datagrams : List (List ℕ)) → Finds self.old.inquiry datagrams self.old.found → Finds self.old.inquiry (datagrams ++ octets.now ∷ []) self.new.found }
    {
        let Some(about) = told(self.inquiry, octets) else {
            return;
        };
        if self.found.len() >= Finder::MOST {
            return;
        }
        if has(self.found.as_slice(), &about) {
            return;
        }
        let _ = self.found.push(about);
    }
}

/// What an awaited response tells; None exactly where the octets are none.
fn told(inquiry: Inquiry, octets: &[u8]) -> Option<About>
    ensures some { IfSome result (λ about. Tells inquiry octets.now about) }
    ensures none { IfNone result (TellsNothing inquiry octets.now) }
{
    let frame = decode(octets).ok()?;
    match inquiry {
        Inquiry::Search => match frame {
            FindFrame::SearchResponse(about) => Some(about),
            _ => None,
        },
        Inquiry::Description => match frame {
            FindFrame::DescriptionResponse(about) => Some(about),
            _ => None,
        },
    }
}

/// Whether one was found.
fn has(found: &[About], about: &About) -> bool
    ensures { IsTrue result ↔ Contains found.now about.now }
{
    for other in found {
        if about.is_same(other) {
            return true;
        }
    }
    false
}
