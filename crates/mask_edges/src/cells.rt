// One pass over a block whose transforms the tables of `decomp` tell.
ghost use Rattle.std.specs.Prelude.{◌≡◌, ◌+◌, ◌-◌, ◌<◌, ◌≤◌, length, get_or};
ghost use Rattle.plane.specs.Line.{pass_of};
ghost use Rattle.mask_edges.specs.Folds.{bit_in, block_edge, walk, line_edges, stores, cell_pass, cell_at, class_in, step_in, Held, Told};

use super::edge::{BlockPass, set_edge};

const CLASS: usize = 0;

const STEP: usize = 1;

fn cell(txa: &[u8; 4096], rowwise: bool, what: usize, u: usize, v: usize) -> u8
    requires { (what < 2) × (u < 32) × (v < 32) }
    ensures { result ≡ get_or txa.now (cell_at (pass_of rowwise) what u v) 0 }
{
    if rowwise {
        let at = ((2 + what) * 32 + u) * 32 + v;
        return txa[at];
    }
    let at = (what * 32 + v) * 32 + u;
    txa[at]
}

// The block's own edge; its context becomes the class of its last units.
fn first_edges(masks: &mut [u16], txa: &[u8; 4096], p: BlockPass, ctx: &mut [u8])
    requires { Held p (length masks.old) × Told txa.now p × (0 < p.across) × (p.along ≤ length ctx.old) }
    ensures masks { masks.new ≡ block_edge (bit_in p) p.along (class_in txa.now p 0) (λ v. get_or ctx.old v 0) masks.old }
    ensures context { ctx.new ≡ stores p.along (class_in txa.now p (p.across - 1)) ctx.old }
{
    let u = p.across - 1;
    for v in 0..p.along {
        let class = cell(txa, p.rowwise, CLASS, 0, v);
        let k = class.min(ctx[v]);
        ctx[v] = cell(txa, p.rowwise, CLASS, u, v);
        set_edge(masks, p, 0, k, v);
    }
}

// The inner edges of line v: from one transform to the next, by its step.
fn line_edges(masks: &mut [u16], txa: &[u8; 4096], p: BlockPass, v: usize)
    requires { Held p (length masks.old) × Told txa.now p × (0 < p.across) × (v < p.along) }
    ensures { masks.new ≡ walk (bit_in p) p.across (λ u. class_in txa.now p u v) (λ u. step_in txa.now p u v) v p.across
        (step_in txa.now p 0 v) (class_in txa.now p 0 v) masks.old }
{
    let mut ltx = cell(txa, p.rowwise, CLASS, 0, v);
    let mut x = usize::from(cell(txa, p.rowwise, STEP, 0, v));
    while x < p.across {
        let rtx = cell(txa, p.rowwise, CLASS, x, v);
        set_edge(masks, p, x, rtx.min(ltx), v);
        ltx = rtx;
        x += usize::from(cell(txa, p.rowwise, STEP, x, v));
    }
}

fn inner_edges(masks: &mut [u16], txa: &[u8; 4096], p: BlockPass)
    requires { Held p (length masks.old) × Told txa.now p × (0 < p.across) }
    ensures { masks.new ≡ line_edges (bit_in p) p.across (class_in txa.now p) (step_in txa.now p) p.along masks.old }
{
    for v in 0..p.along {
        line_edges(masks, txa, p, v);
    }
}

pub fn mask_cells(masks: &mut [u16], txa: &[u8; 4096], p: BlockPass, skip: bool, ctx: &mut [u8])
    requires { Held p (length masks.old) × Told txa.now p × (0 < p.across) × (p.along ≤ length ctx.old) }
    ensures masks { masks.new ≡ cell_pass (bit_in p) p.across p.along (class_in txa.now p) (step_in txa.now p) skip
        (λ v. get_or ctx.old v 0) masks.old }
    ensures context { ctx.new ≡ stores p.along (class_in txa.now p (p.across - 1)) ctx.old }
{
    first_edges(masks, txa, p, ctx);
    if skip {
        return;
    }
    inner_edges(masks, txa, p);
}
