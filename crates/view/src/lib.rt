// The level bytes and a place in them, held by one struct: `WithOffset` of the Rust; the level at an edge.
#![tactic(auto)]

ghost use Rattle.std.specs.Prelude.{◌≡◌, ◌<◌, ◌≤◌, length};
ghost use Rattle.view.specs.Level.{level_used, current_at, earlier_at};

#[derive(Clone, Copy)]
pub struct LevelView<'a> {
    pub data: &'a [u8],
    pub offset: usize,
}

impl<'a> LevelView<'a> {
    pub fn new(levels: &'a [u8], offset: usize) -> LevelView<'a>
        ensures { (result.data ≡ levels.entry) × (result.offset ≡ offset) }
    {
        LevelView {
            data: levels,
            offset,
        }
    }

    pub fn current(self) -> u8
        requires { self.offset < length self.data.now }
        ensures { result ≡ current_at self.entry.data.now self.entry.offset }
    {
        self.data[self.offset]
    }

    // Of the unit `back` bytes earlier.
    pub fn earlier(self, back: usize) -> u8
        requires { (self.offset < length self.data.now) × (back ≤ self.offset) }
        ensures { result ≡ earlier_at self.entry.data.now self.entry.offset back }
    {
        self.data[self.offset - back]
    }
}

fn level_used(l: u8, before: u8) -> u8
    ensures { result ≡ level_used l before }
{
    if l != 0 {
        return l;
    }
    before
}

// Plain parameters, for whoever has no view.
pub fn filter_level(levels: &[u8], at: usize, back: usize) -> u8
    requires { (at < length levels.now) × (back ≤ at) }
    ensures { result ≡ level_used (current_at levels.now at) (earlier_at levels.now at back) }
{
    let v = LevelView::new(levels, at);
    level_used(v.current(), v.earlier(back))
}
