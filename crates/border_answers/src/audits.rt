// `audit`, for C, and its answer as a struct of numbers.
ghost use Rattle.std.specs.Prelude.{◌≡◌, Err};
ghost use Rattle.audit.specs.Audit.{audit as answer};
ghost use Rattle.audit.specs.Held.{audit_as};
ghost use Rattle.border_core.specs.Replies.{asked_by};
ghost use Rattle.border_answers.specs.Replies.{IsBehind, SaysAudit, SaysAt};

use audit::{Finding, audit};
use border_core::{settings_of, told_of};
use rules::{Address, Place, Refusal};

// The finding: 0 the same, 1 another byte, 2 the shipped image ends there, 3 only it goes on. The address, both bytes, and whether the
// wanted byte belongs to a statement (1), its place and the byte's offset.
#[repr(C)]
#[derive(Clone, Copy)]
pub struct AuditReply {
    pub number: u64,
    pub place: u64,
    pub argument: u64,
    pub amount: i64,
    pub finding: u64,
    pub address: u64,
    pub wanted: u64,
    pub shipped: u64,
    pub owned: u64,
    pub statement: u64,
    pub offset: u64,
}

// The statement that a byte belongs to, as numbers.
#[derive(Clone, Copy)]
pub struct Behind {
    pub owned: u64,
    pub statement: u64,
    pub offset: u64,
}

fn owner_of(origin: Option<(Place, usize)>) -> Behind
    ensures { IsBehind result origin }
{
    match origin {
        Some((i, o)) => Behind {
            owned: 1,
            statement: i.0 as u64,
            offset: o as u64,
        },
        None => Behind {
            owned: 0,
            statement: 0,
            offset: 0,
        },
    }
}

fn found_at(
    finding: u64,
    a: Address,
    wanted: u8,
    shipped: u8,
    origin: Option<(Place, usize)>,
) -> AuditReply
    ensures { SaysAt result finding a.0 wanted shipped origin }
{
    let b = owner_of(origin);
    AuditReply {
        number: 0,
        place: 0,
        argument: 0,
        amount: 0,
        finding,
        address: a.0 as u64,
        wanted: wanted as u64,
        shipped: shipped as u64,
        owned: b.owned,
        statement: b.statement,
        offset: b.offset,
    }
}

fn refused(r: Refusal) -> AuditReply
    ensures { SaysAudit result (Err r) }
{
    let t = told_of(r);
    AuditReply {
        number: t.number,
        place: t.place,
        argument: t.argument,
        amount: t.amount,
        finding: 0,
        address: 0,
        wanted: 0,
        shipped: 0,
        owned: 0,
        statement: 0,
        offset: 0,
    }
}

fn audit_reply(found: Result<Finding, Refusal>) -> AuditReply
    ensures { SaysAudit result found }
{
    match found {
        Err(r) => refused(r),
        Ok(Finding::Same) => found_at(0, Address(0), 0, 0, None),
        Ok(Finding::Differs(a, w, s, o)) => found_at(1, a, w, s, o),
        Ok(Finding::Short(a, o)) => found_at(2, a, 0, 0, o),
        Ok(Finding::Long(a)) => found_at(3, a, 0, 0, None),
    }
}

// `audit`, the settings as three bytes, with its answer so.
pub fn audit_answer(
    comments: u8,
    callf: u8,
    folds: u8,
    listing: &[u8],
    shipped: &[u8],
) -> AuditReply
    ensures { SaysAudit result (audit_as (answer (asked_by comments callf folds) listing.now shipped.now)) }
{
    audit_reply(audit(settings_of(comments, callf, folds), listing, shipped))
}
