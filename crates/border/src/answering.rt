// The answers about the rewriting, for C: an image held against a listing, the rewrites one by one, and why forms stay.
ghost use Rattle.std.specs.Prelude.{◌≡◌, length};
ghost use Rattle.audit.specs.Audit.{audit};
ghost use Rattle.audit.specs.Held.{audit_as};
ghost use Rattle.steps.specs.Entry.{told, answer_as, room_as};
ghost use Rattle.why.specs.Entry.{told as why_told, answer_as as why_answer, room_as as why_room};
ghost use Rattle.border_core.specs.Replies.{asked_by};
ghost use Rattle.border_answers.specs.Replies.{SaysAudit, SaysSteps};

use border_answers::{AuditReply, StepsReply, audit_answer, steps_answer, why_answer};

// `audit`, for C.
#[unsafe(no_mangle)]
pub extern "C" fn mortarbee_audit(
    comments: u8,
    callf: u8,
    folds: u8,
    listing: &[u8],
    shipped: &[u8],
) -> AuditReply
    ensures { SaysAudit result (audit_as (audit (asked_by comments callf folds) listing.now shipped.now)) }
{
    audit_answer(comments, callf, folds, listing, shipped)
}

// `steps`, for C.
#[unsafe(no_mangle)]
pub extern "C" fn mortarbee_steps(
    comments: u8,
    callf: u8,
    folds: u8,
    listing: &[u8],
    out: &mut [u8],
) -> StepsReply
    ensures fact { let x = told (asked_by comments callf folds) listing.now (length out.old) in
        SaysSteps result (answer_as x) }
    ensures out_after { let x = told (asked_by comments callf folds) listing.now (length out.old) in
        out.new ≡ room_as x out.old }
{
    steps_answer(comments, callf, folds, listing, out)
}

// `why`, for C.
#[unsafe(no_mangle)]
pub extern "C" fn mortarbee_why(
    comments: u8,
    callf: u8,
    folds: u8,
    listing: &[u8],
    out: &mut [u8],
) -> StepsReply
    ensures fact { let x = why_told (asked_by comments callf folds) listing.now (length out.old) in
        SaysSteps result (why_answer x) }
    ensures out_after { let x = why_told (asked_by comments callf folds) listing.now (length out.old) in
        out.new ≡ why_room x out.old }
{
    why_answer(comments, callf, folds, listing, out)
}
