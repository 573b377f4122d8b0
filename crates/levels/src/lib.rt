// Public: the level values of a frame header. It is `rav1d_calc_lf_values` of the Rust.
#![tactic(auto)]

ghost use Rattle.std.specs.Prelude.{◌≡◌, cond, ◌&&◌, ◌||◌, ◌+◌, ◌*◌, ◌/◌, ◌%◌, ◌<◌, ◌≤◌, eqb, ltb, get_or, length};
ghost use Rattle.loops.specs.Any.{any_below};
ghost use Rattle.loops.specs.Flag.{on};
ghost use Rattle.refusals.specs.Numbers.{answered};
ghost use Rattle.levels.specs.Levels.{levels_in, out_of_range, area_level, luma_off, levels_done, LevelsAnswer};
ghost use Rattle.levels.specs.Promises.{Promises};
ghost use Rattle.levels.specs.Helpers.{stores, biased_level, header_in};

use deltas::{any_outside, lf_of, mode_ref_level, seg_of, segment_base};
use refusals::Refusal;

fn any_above(base: &[u8; 4]) -> bool
    ensures { result ≡ any_below 4 (λ k. ltb 63 (get_or base.now k 0)) }
{
    base.iter().any(|&level| level > 63)
}

fn chroma_at_400(layout: u32, base: &[u8; 4]) -> bool
    ensures { result ≡ (eqb layout 400 && (on (get_or base.now 2 0) || on (get_or base.now 3 0))) }
{
    (layout == 400) & ((base[2] != 0) | (base[3] != 0))
}

// What the values are made of.
#[derive(Clone, Copy)]
struct Header {
    base: [u8; 4],
    enabled: u32,
    refs: [i8; 8],
    modes: [i8; 2],
    multi: u32,
    lf: [i8; 4],
    segmentation: u32,
    seg: [i8; 32],
}

impl Header {
    #[tactic(auto, unfolding(crate::specs::Levels::out_of_range))]
    fn out_of_range(&self, layout: u32) -> bool
        ensures { result ≡ out_of_range layout self.now.base self.now.refs self.now.modes self.now.lf self.now.seg }
    {
        any_above(&self.base)
            | any_outside(&self.refs, 64)
            | any_outside(&self.modes, 64)
            | any_outside(&self.lf, 63)
            | any_outside(&self.seg, 63)
            | chroma_at_400(layout, &self.base)
    }

    fn luma_off(&self) -> bool
        ensures { result ≡ luma_off self.now.base }
    {
        (self.base[0] == 0) & (self.base[1] == 0)
    }

    fn areas(&self) -> usize
        ensures { (result ≡ cond (on self.now.segmentation) 32 4) × (result ≤ 32) }
    {
        if self.segmentation == 0 { 4 } else { 32 }
    }

    fn calc_lf_value(&self, values: &mut [u8], at: usize, level: u8, lf: u32, seg: u32)
        requires { (at + 16 ≤ length values.old) × (lf < 256) × (seg < 256) }
        ensures { values.new ≡ stores (biased_level level lf seg self.now.enabled self.now.refs self.now.modes)
            at 16 values.old }
    {
        let base = segment_base(level, lf, seg);
        for j in 0..16 {
            values[at + j] = mode_ref_level(
                base,
                self.enabled,
                &self.refs,
                &self.modes,
                j / 2,
                j % 2,
            ) as u8;
        }
    }

    fn calc_lf_value_chroma(&self, values: &mut [u8], at: usize, level: u8, lf: u32, seg: u32)
        requires { (at + 16 ≤ length values.old) × (lf < 256) × (seg < 256) }
        ensures { values.new ≡ stores
            (λ j. cond (eqb level 0) 0 (biased_level level lf seg self.now.enabled self.now.refs self.now.modes j))
            at 16 values.old }
    {
        if level == 0 {
            clear(values, at, 16);
            return;
        }
        self.calc_lf_value(values, at, level, lf, seg);
    }

    // segment c / 4, area c % 4
    fn calc_area(&self, values: &mut [u8], c: usize)
        requires { (c < 32) × (16 * c + 16 ≤ length values.old) }
        ensures { values.new ≡ stores (λ j. area_level (header_in self.now) (c / 4) (c % 4) (j / 2) (j % 2))
            (16 * c) 16 values.old }
    {
        let k = c % 4;
        let level = self.base[k];
        let d = lf_of(&self.lf, self.multi, k);
        let f = seg_of(&self.seg, self.segmentation, c);
        if k < 2 {
            self.calc_lf_value(values, 16 * c, level, d, f);
            return;
        }
        self.calc_lf_value_chroma(values, 16 * c, level, d, f);
    }

    fn rav1d_calc_lf_values(&self, values: &mut [u8])
        requires { length values.old ≡ 512 }
        ensures { values.new ≡ levels_done (header_in self.now) values.old }
    {
        let n = self.areas();
        if self.luma_off() {
            clear(values, 0, 16 * n);
            return;
        }
        for c in 0..n {
            self.calc_area(values, c);
        }
    }
}

fn clear(values: &mut [u8], at: usize, n: usize)
    requires { at + n ≤ length values.old }
    ensures { values.new ≡ stores (λ j. 0) at n values.old }
{
    values[at..at + n].fill(0);
}

#[tactic(auto, unfolding(crate::specs::Levels::levels_number))]
pub fn levels(
    values: &mut [u8; 512],
    layout: u32,
    base: &[u8; 4],
    delta_enabled: u32,
    ref_delta: &[i8; 8],
    mode_delta: &[i8; 2],
    multi: u32,
    lf_delta: &[i8; 4],
    segmentation: u32,
    seg_delta: &[i8; 32],
) -> Result<(), Refusal>
    ensures { LevelsAnswer layout
        (levels_in base.now delta_enabled ref_delta.now mode_delta.now
        multi lf_delta.now segmentation seg_delta.now)
        (answered result) values.old values.new }
{
    let header = Header {
        base: *base,
        enabled: delta_enabled,
        refs: *ref_delta,
        modes: *mode_delta,
        multi,
        lf: *lf_delta,
        segmentation,
        seg: *seg_delta,
    };
    if header.out_of_range(layout) {
        return Err(Refusal::Level);
    }
    if !units::layout::layout_ok(layout as usize) {
        return Err(Refusal::Shape);
    }
    header.rav1d_calc_lf_values(values);
    Ok(())
}

// The theorems of specs/Promises.antt are proved.
pub fn promised()
    ensures { Promises }
{}
