// Layouts, by their numbers 400, 420, 422 and 444.
ghost use Rattle.std.specs.Prelude.{◌≡◌, cond};
ghost use Rattle.units.specs.Layout.{layout_ok, has_chroma, ss_hor, ss_ver};

pub fn layout_ok(layout: usize) -> bool
    ensures { result ≡ layout_ok layout }
{
    matches!(layout, 400 | 420 | 422 | 444)
}

pub fn has_chroma(layout: usize) -> bool
    ensures { result ≡ has_chroma layout }
{
    layout != 400
}

pub fn ss_hor(layout: usize) -> usize
    ensures { result ≡ ss_hor layout }
{
    usize::from(layout != 444)
}

pub fn ss_ver(layout: usize) -> usize
    ensures { result ≡ ss_ver layout }
{
    usize::from(layout == 420)
}

// The subsampling of a plane to the right.
pub fn plane_ss_hor(luma: bool, layout: usize) -> usize
    ensures { result ≡ cond luma 0 (ss_hor layout) }
{
    if luma { 0 } else { ss_hor(layout) }
}

// And down.
pub fn plane_ss_ver(luma: bool, layout: usize) -> usize
    ensures { result ≡ cond luma 0 (ss_ver layout) }
{
    if luma { 0 } else { ss_ver(layout) }
}
