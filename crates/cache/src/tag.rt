// What a line's tag byte says.
ghost use Rattle.std.specs.Prelude.{◌≡◌, ◌<◌};
ghost use Rattle.board.specs.Board.{Regular};
ghost use Rattle.cache.specs.Tag.{HasByte, Says, names, tag_keeps_rules, line_keeps_rules, tags_keep_rules};

use board::Board;

// A line's tag: it is empty, or holds a frame's words, clean or written and not written back since.
#[derive(Clone, Copy, Debug, PartialEq, Eq)]
pub enum Tag {
    Empty,
    Clean(usize),
    Dirty(usize),
}

// The byte of an empty line's tag, and those of a clean and of a dirty line's of frame 0.
const EMPTY: u8 = 0;

const CLEAN: u8 = 1;

const DIRTY: u8 = 129;

impl From<u8> for Tag {
    ghost from_gives = { λ byte tag. Says byte tag };

    fn from(byte: u8) -> Tag {
        match byte {
            EMPTY => Tag::Empty,
            CLEAN..DIRTY => Tag::Clean(usize::from(byte - CLEAN)),
            DIRTY.. => Tag::Dirty(usize::from(byte - DIRTY)),
        }
    }
}

impl Tag {
    // The byte that says it.
    pub fn byte(self) -> u8
        requires { HasByte self }
        ensures { Says result self }
    {
        match self {
            Tag::Empty => EMPTY,
            Tag::Clean(frame) => CLEAN + frame as u8,
            Tag::Dirty(frame) => DIRTY + frame as u8,
        }
    }
}

// Whether every tag keeps the rules.
pub fn tags_keep_rules(board: Board, tags: &[u8]) -> bool
    requires { Regular board }
    ensures { result ≡ tags_keep_rules board tags.now }
{
    tags.iter()
        .enumerate()
        .all(|(line, tag)| line_keeps_rules(board, line, *tag))
}

// Whether a line's tag keeps the rules: it is empty or names a frame of the board, and an instruction line's is not dirty.
#[tactic(auto, unfolding(crate::specs::Tag::line_keeps_rules, crate::specs::Tag::tag_keeps_rules, crate::specs::Tag::frame_of, crate::specs::Tag::is_dirty_tag))]
pub fn line_keeps_rules(board: Board, line: usize, tag: u8) -> bool
    requires { Regular board }
    ensures { result ≡ line_keeps_rules board line tag }
{
    match Tag::from(tag) {
        Tag::Empty => true,
        Tag::Clean(frame) => frame < board.frames,
        Tag::Dirty(frame) => frame < board.frames && line < board.data_lines(),
    }
}

// Whether a tag is empty or names a frame of the board.
#[tactic(auto, unfolding(crate::specs::Tag::tag_keeps_rules, crate::specs::Tag::frame_of, crate::specs::Tag::is_dirty_tag))]
pub fn tag_keeps_rules(board: Board, tag: u8) -> bool
    requires { Regular board }
    ensures { result ≡ tag_keeps_rules board tag }
{
    match Tag::from(tag) {
        Tag::Empty => true,
        Tag::Clean(frame) | Tag::Dirty(frame) => frame < board.frames,
    }
}

// Whether a tag names a frame.
#[tactic(auto, unfolding(crate::specs::Tag::names))]
pub fn names(tag: u8, frame: usize) -> bool
    requires { frame < 127 }
    ensures { result ≡ names tag frame }
{
    match Tag::from(tag) {
        Tag::Empty => false,
        Tag::Clean(named) | Tag::Dirty(named) => named == frame,
    }
}
