// The tests that calls make before they do anything: an error is the refusal of the first cause that applies. `seen` is what a look at the list told of
// the call's page, and `kept` whether the list keeps its rules.
ghost use Rattle.std.specs.Prelude.{[], ◌∷◌, ◌++◌, ◌≡◌, IfOk, Some, is_some};
ghost use Rattle.board.specs.Board.{Regular};
ghost use Rattle.manager.specs.Answers.{refusal_in};
ghost use Rattle.manager.specs.Refusals.{first_refusal, frame_cause, part_cause, offset_cause, word_cause, end_cause, out_of_space, out_of_page};
ghost use Rattle.manager.specs.Scaffold.Told.{told_tables, told_mapping, told_page, told_rights};

use super::records::{RECORD_WORDS, record_at, records_keep_rules};
use super::{AccessKind, Refusal};
use board::Board;
use mapping::{Mapping, Seen};
use page_model::busy;

// The refusal in what every call is lent.
#[tactic(auto, unfolding(crate::specs::Refusals::first_refusal, crate::specs::Scaffold::Told::told_tables))]
pub fn tables_refusal(
    board: Board,
    kept: bool,
    records: &[u32],
    protections: &[u8],
) -> Result<(), Refusal>
    requires { Regular board }
    ensures { refusal_in result ≡ first_refusal (told_tables board kept records.now protections.now) }
{
    if records.len() != board.frames * RECORD_WORDS {
        return Err(Refusal::WrongLength);
    }
    if protections.len() != mapping::CAPACITY {
        return Err(Refusal::WrongLength);
    }
    if !kept {
        return Err(Refusal::BrokenRules);
    }
    if !records_keep_rules(board, records) {
        return Err(Refusal::BrokenRules);
    }
    Ok(())
}

// What a look at the list told, where all that is lent is as it should be.
pub fn tested(
    board: Board,
    looked: Option<Seen>,
    records: &[u32],
    protections: &[u8],
) -> Result<Seen, Refusal>
    requires { Regular board }
    ensures refusal { refusal_in result ≡ first_refusal (told_tables board (is_some looked) records.now protections.now) }
    ensures seen { IfOk result (λ seen. looked ≡ Some seen) }
{
    tables_refusal(board, looked.is_some(), records, protections)?;
    looked.ok_or(Refusal::BrokenRules)
}

// The refusal of a mapping in its numbers and the list, where all that is lent is as it should be.
#[tactic(auto, unfolding(crate::specs::Refusals::first_refusal))]
pub fn mapping_refusal(board: Board, seen: Seen, m: Mapping) -> Result<(), Refusal>
    ensures { refusal_in result ≡ first_refusal (told_mapping board m.space m.page m.frame m.rights seen) }
{
    if out_of_space(m.space, m.page) {
        return Err(Refusal::NoSuchPage);
    }
    if usize::from(m.frame) >= board.frames {
        return Err(Refusal::NoSuchFrame);
    }
    if !mapping::is_rights(m.rights) {
        return Err(Refusal::NoSuchRights);
    }
    if seen.mapping.is_some() {
        return Err(Refusal::AlreadyMapped);
    }
    if seen.count == mapping::CAPACITY {
        return Err(Refusal::ListFull);
    }
    Ok(())
}

// The mapping of a page of a space, where all that is lent is as it should be.
#[tactic(auto, unfolding(crate::specs::Refusals::first_refusal))]
pub fn mapping_at(seen: Seen, space: u8, page: u16) -> Result<Mapping, Refusal>
    ensures refusal { refusal_in result ≡ first_refusal (told_page space page seen) }
    ensures mapping { IfOk result (λ m. seen.mapping ≡ Some m) }
{
    if out_of_space(space, page) {
        return Err(Refusal::NoSuchPage);
    }
    seen.mapping.ok_or(Refusal::NotMapped)
}

// The refusal of an access in the rights of its mapping.
#[tactic(auto, unfolding(crate::specs::Refusals::first_refusal))]
pub fn rights_refusal(kind: AccessKind, rights: u8) -> Result<(), Refusal>
    ensures { refusal_in result ≡ first_refusal (told_rights kind rights) }
{
    match kind {
        AccessKind::Write if rights != mapping::READ_WRITE => Err(Refusal::NotWritable),
        AccessKind::Fetch if rights != mapping::READ_FETCH => Err(Refusal::NotFetchable),
        _ => Ok(()),
    }
}

// The refusal of a device's transfer of a page but for the frame's busy mark.
pub fn transfer_refusal(
    board: Board,
    kept: bool,
    records: &[u32],
    protections: &[u8],
    frame: u8,
) -> Result<(), Refusal>
    requires { Regular board }
    ensures { refusal_in result ≡ first_refusal (told_tables board kept records.now protections.now ++ frame_cause board frame ∷ []) }
{
    tables_refusal(board, kept, records, protections)?;
    if usize::from(frame) >= board.frames {
        return Err(Refusal::NoSuchFrame);
    }
    Ok(())
}

// The refusal of a transfer of so many words from an offset on, but for the frame's busy mark.
pub fn part_refusal(
    board: Board,
    kept: bool,
    records: &[u32],
    protections: &[u8],
    frame: u8,
    first: usize,
    number: usize,
) -> Result<(), Refusal>
    requires { Regular board }
    ensures { refusal_in result ≡ first_refusal (told_tables board kept records.now protections.now ++ frame_cause board frame ∷ part_cause board first number ∷ []) }
{
    transfer_refusal(board, kept, records, protections, frame)?;
    if out_of_page(board, first, number) {
        return Err(Refusal::NoSuchPart);
    }
    Ok(())
}

// The refusal of a word at an offset, which a transfer with this mark moves.
pub fn word_refusal(
    board: Board,
    kept: bool,
    records: &[u32],
    protections: &[u8],
    frame: u8,
    offset: usize,
    mark: u32,
) -> Result<(), Refusal>
    requires { Regular board }
    ensures { refusal_in result ≡ first_refusal (told_tables board kept records.now protections.now ++ frame_cause board frame ∷ offset_cause board.page offset ∷ word_cause records.now frame mark ∷ []) }
{
    transfer_refusal(board, kept, records, protections, frame)?;
    if offset >= board.page {
        return Err(Refusal::NoSuchOffset);
    }
    if record_at(records, frame).busy != mark {
        return Err(Refusal::NoTransfer);
    }
    Ok(())
}

// The refusal of the end of a transfer.
pub fn end_refusal(
    board: Board,
    kept: bool,
    records: &[u32],
    protections: &[u8],
    frame: u8,
) -> Result<(), Refusal>
    requires { Regular board }
    ensures { refusal_in result ≡ first_refusal (told_tables board kept records.now protections.now ++ frame_cause board frame ∷ end_cause records.now frame ∷ []) }
{
    transfer_refusal(board, kept, records, protections, frame)?;
    if record_at(records, frame).busy == busy::FREE {
        return Err(Refusal::NoTransfer);
    }
    Ok(())
}

// Whether the space or the page is past its limit.
fn out_of_space(space: u8, page: u16) -> bool
    ensures { result ≡ out_of_space space page }
{
    usize::from(space) >= board::SPACES || usize::from(page) >= board::PAGES
}

// Whether of so many words from an offset on there are none, or one is past the page's last offset.
fn out_of_page(board: Board, first: usize, number: usize) -> bool
    ensures { result ≡ out_of_page board first number }
{
    number == 0 || first > board.page || number > board.page - first
}
