// A plane of units.
ghost use Rattle.edges.specs.Edges.{grid_of, Proper};

use units::LumaUnit;

// Luma or chroma, its subsampling, and the frame in luma units.
#[derive(Clone, Copy)]
pub struct Grid {
    pub luma: bool,
    pub ss_hor: usize,
    pub ss_ver: usize,
    pub w4: LumaUnit,
    pub h4: LumaUnit,
    ghost proper: { Proper (grid_of luma ss_hor ss_ver w4.0 h4.0) },
}
