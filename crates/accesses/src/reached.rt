// What an access reaches at the place that the walk gives for its port.
ghost use Rattle.std.specs.Prelude.{◌≡◌};
ghost use Rattle.model.specs.Ports.{block_register, register_in, offset_in};

use model::Register;
use platform::FadtBlock;
use ports::Place;

fn block_register(b: FadtBlock) -> Register
    ensures { result ≡ block_register b }
{
    match b {
        FadtBlock::SmiCmd => Register::SmiCmd,
        FadtBlock::Pm1aEvtBlk => Register::Pm1Evt(false),
        FadtBlock::Pm1bEvtBlk => Register::Pm1Evt(true),
        FadtBlock::Pm1aCntBlk => Register::Pm1Cnt(false),
        FadtBlock::Pm1bCntBlk => Register::Pm1Cnt(true),
        FadtBlock::Pm2CntBlk => Register::Pm2Cnt,
        FadtBlock::PmTmrBlk => Register::PmTmr,
        FadtBlock::Gpe0Blk => Register::Gpe(false),
        FadtBlock::Gpe1Blk => Register::Gpe(true),
    }
}

// The register of the block; nowhere there is none.
pub fn register_in(place: Option<Place>) -> Register
    ensures { result ≡ register_in place }
{
    place.map_or(Register::Nowhere, |p| block_register(p.block))
}

// The offset in the block; nowhere it is zero.
pub fn offset_in(place: Option<Place>) -> u64
    ensures { result ≡ offset_in place }
{
    place.map_or(0, |p| p.offset)
}
