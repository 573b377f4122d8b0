// One pass over a block of one transform, whose edges stand at every step of its side.
ghost use Rattle.std.specs.Prelude.{◌≡◌, List, ℕ, ◌-◌, ◌*◌, ◌/◌, ◌<◌, ◌≤◌, ◌+◌, length, get_or};
ghost use Rattle.mask_edges.specs.Folds.{classes, bit_in, block_edge, step_edges, stores, grid_pass, Edged, Held};

use super::edge::{BlockPass, set_edges, set_in};
use units::masks::edge_word;

// Of the block's own edge, the units from `from` to `to`, which lie in one half; their context becomes the class.
fn half_edge(
    masks: &mut [u16],
    p: BlockPass,
    half: usize,
    class: u8,
    ctx: &mut [u8],
    from: usize,
    to: usize,
)
    requires held { Held p (length masks.old) × (class < classes p.luma) × (0 < p.across) × (to ≤ p.along) × (p.along ≤ length ctx.old) }
    requires within { (half < 2) × (from ≤ to) × (half * p.half ≤ p.place + from) × (p.place + to ≤ half * p.half + p.half) }
    ensures { (c ms : List ℕ) → Edged p class c ms from ctx.old masks.old → Edged p class c ms to ctx.new masks.new }
{
    let at = edge_word(p.luma, p.rowwise, p.unit, 0) + half;
    let before = half * p.half;
    for v in from..to {
        let k = class.min(ctx[v]);
        ctx[v] = class;
        set_in(masks, at, k, p.place + v - before);
    }
}

// The block's own edge; its context becomes the class.
fn block_edge(masks: &mut [u16], p: BlockPass, class: u8, ctx: &mut [u8])
    requires { Held p (length masks.old) × (class < classes p.luma) × (0 < p.across) × (p.along ≤ length ctx.old) }
    ensures masks { masks.new ≡ block_edge (bit_in p) p.along (λ _. class) (λ v. get_or ctx.old v 0) masks.old }
    ensures context { ctx.new ≡ stores p.along (λ _. class) ctx.old }
{
    if p.half <= p.place {
        half_edge(masks, p, 1, class, ctx, 0, p.along);
        return;
    }
    let n = p.half - p.place;
    if p.along <= n {
        half_edge(masks, p, 0, class, ctx, 0, p.along);
        return;
    }
    half_edge(masks, p, 0, class, ctx, 0, n);
    half_edge(masks, p, 1, class, ctx, n, p.along);
}

fn step_edges(masks: &mut [u16], p: BlockPass, step: usize, class: u8)
    requires { Held p (length masks.old) × (class < classes p.luma) × (0 < p.across) × (0 < step) }
    ensures { masks.new ≡ step_edges (bit_in p) p.along step class ((p.across - 1) / step) masks.old }
{
    if p.across <= step {
        return;
    }
    for i in 0..(p.across - 1) / step {
        set_edges(masks, p, (i + 1) * step, class);
    }
}

pub fn mask_grid(
    masks: &mut [u16],
    p: BlockPass,
    step: usize,
    class: u8,
    skip: bool,
    ctx: &mut [u8],
)
    requires { Held p (length masks.old) × (class < classes p.luma) × (0 < p.across) × (0 < step) × (p.along ≤ length ctx.old) }
    ensures masks { masks.new ≡ grid_pass (bit_in p) p.across p.along step class skip (λ v. get_or ctx.old v 0) masks.old }
    ensures context { ctx.new ≡ stores p.along (λ _. class) ctx.old }
{
    block_edge(masks, p, class, ctx);
    if skip {
        return;
    }
    step_edges(masks, p, step, class);
}
