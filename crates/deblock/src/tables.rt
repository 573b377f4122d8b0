// The limit table of a sharpness, and the level values of a frame header.
ghost use Rattle.limits.specs.Limits.{lut, LimitsLent};
ghost use Rattle.levels.specs.Levels.{levels_in, LevelsAnswer};

use refusals::answered;

#[unsafe(no_mangle)]
pub extern "C" fn deblock_limits(
    e: &mut [u8; 64],
    i: &mut [u8; 64],
    sharp: &mut [u64; 2],
    sharpness: u32,
) -> u32
    ensures { LimitsLent sharpness result (lut e.old i.old sharp.old) (lut e.new i.new sharp.new) }
{
    answered(limits::limits_into(e, i, sharp, sharpness))
}

#[unsafe(no_mangle)]
pub extern "C" fn deblock_levels(
    values: &mut [u8; 512],
    layout: u32,
    base: &[u8; 4],
    delta_enabled: u32,
    ref_delta: &[i8; 8],
    mode_delta: &[i8; 2],
    multi: u32,
    lf_delta: &[i8; 4],
    segmentation: u32,
    seg_delta: &[i8; 32],
) -> u32
    ensures { LevelsAnswer layout
        (levels_in base.now delta_enabled ref_delta.now mode_delta.now
        multi lf_delta.now segmentation seg_delta.now)
        result values.old values.new }
{
    answered(levels::levels(
        values,
        layout,
        base,
        delta_enabled,
        ref_delta,
        mode_delta,
        multi,
        lf_delta,
        segmentation,
        seg_delta,
    ))
}
