// The mapping list: which frame stands behind a page of a space, and with which rights.
#![tactic(auto)]

pub mod lent;

ghost use Rattle.std.specs.Prelude.{◌≡◌, ◌+◌, ◌*◌, ◌≤◌, ◌&&◌, true, eqb, length, take};
ghost use Rattle.board.specs.declared.Board as any;
ghost use Rattle.mapping.specs.declared.MappingList as any_list;
ghost use Rattle.mapping.specs.Entry.{is_rights, zero_mapping, in_range, is_zero, is_at, is_before};
ghost use Rattle.mapping.specs.Rules.{all_in_range, rising, every_zero, keeps_rules};
ghost use Rattle.mapping.specs.Change.{empty, insert_at, remove};
ghost use Rattle.mapping.specs.Look.{find, look, ToldWithin};

use board::Board;

// How many records the list has.
pub const CAPACITY: usize = 256;

// How many records a batch has.
pub const BATCH: usize = 64;

// The rights of a mapping: read; read and write; read and fetch (request N8).
pub const READ_ONLY: u8 = 1;

pub const READ_WRITE: u8 = 2;

pub const READ_FETCH: u8 = 3;

// Whether a number is that of rights.
pub fn is_rights(rights: u8) -> bool
    ensures { result ≡ is_rights rights }
{
    (READ_ONLY..=READ_FETCH).contains(&rights)
}

#[derive(Clone, Copy, Debug, Default, PartialEq, Eq)]
pub struct Mapping {
    pub space: u8,
    pub page: u16,
    pub frame: u8,
    pub rights: u8,
}

// The first count records are listed, in rising order of space, then page; the others are zero.
#[derive(Clone, Copy)]
pub struct MappingList {
    pub items: [Mapping; CAPACITY],
    pub count: usize,
}

// The items of a call over many mappings: the first count records, in order. A count past BATCH is that of a list too long for it.
#[derive(Clone, Copy)]
pub struct Batch {
    pub items: [Mapping; BATCH],
    pub count: usize,
}

// What one look at the list tells of a page of a space.
#[derive(Clone, Copy, Debug, PartialEq, Eq)]
pub struct Seen {
    pub count: usize,
    // The place of the page's mapping, or the one where it would go.
    pub place: usize,
    // The page's mapping, if there is one.
    pub mapping: Option<Mapping>,
}

impl Mapping {
    // The record of a place that holds no mapping.
    pub fn zero() -> Self
        ensures { result ≡ zero_mapping }
    {
        Self::default()
    }

    // Whether space, page, frame and rights lie in their ranges.
    pub fn in_range(self, board: Board) -> bool
        ensures { result ≡ in_range board self }
    {
        usize::from(self.space) < board::SPACES
            && usize::from(self.page) < board::PAGES
            && usize::from(self.frame) < board.frames
            && is_rights(self.rights)
    }

    // Whether this is the mapping of a page of a space.
    pub fn is_at(self, space: u8, page: u16) -> bool
        ensures { result ≡ is_at self space page }
    {
        (self.space, self.page) == (space, page)
    }

    // Whether this stands before a page of a space: rising order of space, then page.
    fn is_before(self, space: u8, page: u16) -> bool
        ensures { result ≡ is_before self space page }
    {
        key(self.space, self.page) < key(space, page)
    }

    // A number that is 0 exactly if all fields are. Three of them make up a word, so that they are read at once.
    fn content(self) -> u32
        ensures { eqb result 0 ≡ is_zero self }
    {
        let word = u32::from(self.page)
            | u32::from(self.frame) << 16
            | u32::from(self.rights) << 24;
        u32::from(self.space) | word
    }
}

// What one look at the list tells a call of a page of a space, or nothing where the list breaks its rules.
pub fn look(board: Board, list: MappingList, space: u8, page: u16) -> Option<Seen>
    ensures { result ≡ look board list space page }
{
    if keeps_rules(board, list) {
        Some(find(list, space, page))
    } else {
        None
    }
}

// Whether the list keeps its rules, whatever it holds.
pub fn keeps_rules(board: Board, list: MappingList) -> bool
    ensures { result ≡ keeps_rules board list }
{
    if list.count > CAPACITY {
        return false;
    }
    let (listed, rest) = list.items.split_at(list.count);
    in_order(board, listed) && all_zero(rest)
}

// Whether every record is in range and stands before the next, in one pass.
fn in_order(board: Board, records: &[Mapping]) -> bool
    ensures { (l : any_list.MappingList) → records.now ≡ take l.count l.items → l.count ≤ length l.items → result ≡ (all_in_range board l && rising l) }
{
    // The least key that the next record may have.
    let mut least = 0;
    for m in records {
        if !m.in_range(board) {
            return false;
        }
        let key = key(m.space, m.page);
        if key < least {
            return false;
        }
        least = key + 1;
    }
    true
}

// Whether all fields of every record are 0. All contents are put together and tested once, which costs half of a test of each.
fn all_zero(records: &[Mapping]) -> bool
    ensures { result ≡ every_zero records.now }
{
    let mut content = 0;
    for m in records {
        content |= m.content();
    }
    content == 0
}

// What a list that keeps its rules tells of a page of a space, found by halving. The rules are not tested. In a list that breaks them the place is
// free, but at most the count and CAPACITY; a mapping is told if the page's is listed at that place.
pub fn find(list: MappingList, space: u8, page: u16) -> Seen
    ensures told { (b : any.Board) → keeps_rules b list ≡ true → result ≡ find list space page }
    ensures always { ToldWithin list space page result }
{
    let end = list.count.min(CAPACITY);
    let listed = &list.items[..end];
    let place = listed.partition_point(|m| m.is_before(space, page));
    Seen {
        count: list.count,
        place,
        mapping: listed.get(place).copied().filter(|m| m.is_at(space, page)),
    }
}

// The list at the start: no mapping is listed.
pub fn empty() -> MappingList
    ensures { result ≡ empty }
{
    MappingList {
        items: [Mapping::zero(); CAPACITY],
        count: 0,
    }
}

// The list with m at place i: the later ones move up by one. Unchanged where it is full, or where i is past the count.
pub fn insert_at(list: MappingList, i: usize, m: Mapping) -> MappingList
    ensures { result ≡ insert_at list i m }
{
    if list.count >= CAPACITY || i > list.count {
        return list;
    }
    let mut next = list;
    next.items[i + 1..].copy_from_slice(&list.items[i..CAPACITY - 1]);
    next.items[i] = m;
    next.count += 1;
    next
}

// The list without the mapping at place i: the later ones move down by one. Unchanged where i is not listed.
pub fn remove(list: MappingList, i: usize) -> MappingList
    ensures { result ≡ remove list i }
{
    if i >= list.count || list.count > CAPACITY {
        return list;
    }
    let mut next = list;
    next.items[i..CAPACITY - 1].copy_from_slice(&list.items[i + 1..]);
    next.items[CAPACITY - 1] = Mapping::zero();
    next.count -= 1;
    next
}

// A number that is smaller for pages that stand earlier: rising order of space, then page.
fn key(space: u8, page: u16) -> u32
    ensures { result ≡ space * 65536 + page }
{
    u32::from(space) * 65536 + u32::from(page)
}
