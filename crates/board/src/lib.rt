// The board: its four numbers, the sizes that follow from them, and which word, line and colour belong together.
#![tactic(auto)]

ghost use Rattle.std.specs.Prelude.{◌≡◌, ◌+◌, ◌≤◌, ◌<◌};
ghost use Rattle.board.specs.Board.{Regular, colour_of, cache_pages, instruction_page, page_lines, data_lines, lines, cache_words, memory_words, line_of, colour_line, line_at, cache_at, line_offset, memory_at};

// A board: words in a page, words in a line, colours (pages of the data cache, and of the instruction cache), frames (physical pages).
#[derive(Clone, Copy, Debug, PartialEq, Eq)]
pub struct Board {
    pub page: usize,
    pub line: usize,
    pub colours: usize,
    pub frames: usize,
}

// Document 01's board, which every call of the manager and the machine passes on. Nothing below these calls knows it.
pub const BOARD01: Board = Board {
    page: 64,
    line: 8,
    colours: 8,
    frames: 64,
};

// The address spaces, and the virtual pages of each.
pub const SPACES: usize = 16;

pub const PAGES: usize = 1024;

impl Board {
    // The lines of a page.
    #[tactic(auto, using(crate::proofs::Geometry::page_lines_small), unfolding(crate::specs::Board::page_lines))]
    pub fn page_lines(self) -> usize
        requires { Regular self }
        ensures value { result ≡ page_lines self }
        ensures within { result ≤ 1024 }
    {
        self.page / self.line
    }

    // The pages of both caches: those of the data cache, and behind them those of the instruction cache.
    pub fn cache_pages(self) -> usize
        requires { Regular self }
        ensures { result ≡ cache_pages self }
    {
        2 * self.colours
    }

    // The page of the instruction cache that a colour has.
    pub fn instruction_page(self, colour: usize) -> usize
        requires { Regular self × (colour < self.colours) }
        ensures value { result ≡ instruction_page self colour }
        ensures within { result < cache_pages self }
    {
        self.colours + colour
    }

    // The lines of the data cache, and of both caches.
    #[tactic(auto, using(crate::proofs::Geometry::data_lines_small), unfolding(crate::specs::Board::data_lines))]
    pub fn data_lines(self) -> usize
        requires { Regular self }
        ensures { result ≡ data_lines self }
    {
        self.colours * self.page_lines()
    }

    #[tactic(auto, using(crate::proofs::Geometry::lines_small), unfolding(crate::specs::Board::lines))]
    pub fn lines(self) -> usize
        requires { Regular self }
        ensures { result ≡ lines self }
    {
        self.cache_pages() * self.page_lines()
    }

    // The words of both caches.
    #[tactic(auto, using(crate::proofs::Geometry::cache_words_small), unfolding(crate::specs::Board::cache_words))]
    pub fn cache_words(self) -> usize
        requires { Regular self }
        ensures { result ≡ cache_words self }
    {
        self.cache_pages() * self.page
    }

    // The words of memory.
    #[tactic(auto, using(crate::proofs::Geometry::memory_words_small), unfolding(crate::specs::Board::memory_words))]
    pub fn memory_words(self) -> usize
        requires { Regular self }
        ensures { result ≡ memory_words self }
    {
        self.frames * self.page
    }

    // The colour of a virtual page.
    #[tactic(auto, using(crate::proofs::Geometry::colour_of_lt), unfolding(crate::specs::Board::colour_of))]
    pub fn colour_of(self, page: usize) -> usize
        requires { Regular self }
        ensures value { result ≡ colour_of self page }
        ensures within { result < self.colours }
    {
        page % self.colours
    }

    // The line in which an offset of a page lies that goes through a page of the caches.
    #[tactic(auto, using(crate::proofs::Geometry::line_of_lt, crate::proofs::Geometry::line_of_small), unfolding(crate::specs::Board::line_of))]
    pub fn line_of(self, colour: usize, offset: usize) -> usize
        requires { Regular self × (colour < cache_pages self) × (offset < self.page) }
        ensures value { result ≡ line_of self colour offset }
        ensures within { result < lines self }
    {
        colour * self.page_lines() + offset / self.line
    }

    // A line of a page of the caches, by its number among them.
    #[tactic(auto, using(crate::proofs::Geometry::colour_line_small), unfolding(crate::specs::Board::colour_line))]
    pub fn colour_line(self, colour: usize, i: usize) -> usize
        requires { Regular self × (colour < cache_pages self) × (i < page_lines self) }
        ensures value { result ≡ colour_line self colour i }
        ensures within { result < lines self }
    {
        colour * self.page_lines() + i
    }

    // The first word of a line in the caches.
    #[tactic(auto, using(crate::proofs::Geometry::line_at_end, crate::proofs::Geometry::cache_words_small, crate::proofs::Geometry::line_at_small), unfolding(crate::specs::Board::line_at))]
    pub fn line_at(self, line: usize) -> usize
        requires { Regular self × (line < lines self) }
        ensures value { result ≡ line_at self line }
        ensures within { (result + self.line ≤ cache_words self) × (cache_words self ≤ 65536) }
    {
        line * self.line
    }

    // The word of the caches that holds an offset in a page of them.
    #[tactic(auto, using(crate::proofs::Geometry::cache_at_flat, crate::proofs::Geometry::cache_at_small))]
    pub fn cache_at(self, colour: usize, offset: usize) -> usize
        requires { Regular self × (colour < cache_pages self) × (offset < self.page) }
        ensures value { result ≡ cache_at self colour offset }
        ensures within { (result < cache_words self) × (cache_words self ≤ 65536) }
    {
        colour * self.page + offset
    }

    // The first offset of a page that lies in a line.
    #[tactic(auto, using(crate::proofs::Geometry::page_lines_pos, crate::proofs::Geometry::line_offset_small, crate::proofs::Geometry::line_offset_end), unfolding(crate::specs::Board::line_offset))]
    pub fn line_offset(self, line: usize) -> usize
        requires { Regular self }
        ensures value { result ≡ line_offset self line }
        ensures within { result + self.line ≤ self.page }
    {
        line % self.page_lines() * self.line
    }

    // The word of memory at an offset of a frame.
    #[tactic(auto, using(crate::proofs::Geometry::frame_at_end, crate::proofs::Geometry::memory_words_small, crate::proofs::Geometry::memory_at_small), unfolding(crate::specs::Board::memory_at, crate::specs::Board::frame_at))]
    pub fn memory_at(self, frame: usize, offset: usize) -> usize
        requires { Regular self × (frame < self.frames) × (offset < self.page) }
        ensures value { result ≡ memory_at self frame offset }
        ensures within { (result + self.page ≤ memory_words self + offset) × (memory_words self ≤ 65536) }
    {
        frame * self.page + offset
    }
}
