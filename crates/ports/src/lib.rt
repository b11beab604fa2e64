// The port map: where a port leads.
#![tactic(auto)]

ghost use Rattle.std.specs.Prelude.{◌≡◌, ◌-◌};
ghost use Rattle.ports.specs.Walk.{in_block, walk};

use platform::{Block, FadtBlock, Settings, holds_port};

// Where a port leads: into a block, at an offset.
#[derive(Clone, Copy)]
pub struct Place {
    pub block: FadtBlock,
    pub offset: u64,
}

fn inside(block: FadtBlock, b: Block, port: u64) -> Option<Place>
    ensures { result ≡ in_block block (port - b.address) }
{
    let offset = platform::offset(b, port);
    Some(Place { block, offset })
}

// One walk over the blocks in the order of their FADT address fields, SMI_CMD first: the first that is present and holds the port, or none.
#[tactic(auto, unfolding(crate::specs::Walk::walk_over))]
pub fn walk(s: Settings, port: u64) -> Option<Place>
    ensures { result ≡ walk s port }
{
    let smi_cmd = Block::new(s.smi_cmd, 1);
    if holds_port(smi_cmd, port) {
        return inside(FadtBlock::SmiCmd, smi_cmd, port);
    }
    let pm1a_evt = s.pm1a_evt;
    if holds_port(pm1a_evt, port) {
        return inside(FadtBlock::Pm1aEvtBlk, pm1a_evt, port);
    }
    let pm1b_evt = s.pm1b_evt;
    if holds_port(pm1b_evt, port) {
        return inside(FadtBlock::Pm1bEvtBlk, pm1b_evt, port);
    }
    let pm1a_cnt = s.pm1a_cnt;
    if holds_port(pm1a_cnt, port) {
        return inside(FadtBlock::Pm1aCntBlk, pm1a_cnt, port);
    }
    let pm1b_cnt = s.pm1b_cnt;
    if holds_port(pm1b_cnt, port) {
        return inside(FadtBlock::Pm1bCntBlk, pm1b_cnt, port);
    }
    let pm2_cnt = s.pm2_cnt;
    if holds_port(pm2_cnt, port) {
        return inside(FadtBlock::Pm2CntBlk, pm2_cnt, port);
    }
    let pm_tmr = s.pm_tmr;
    if holds_port(pm_tmr, port) {
        return inside(FadtBlock::PmTmrBlk, pm_tmr, port);
    }
    let gpe0 = s.gpe0;
    if holds_port(gpe0, port) {
        return inside(FadtBlock::Gpe0Blk, gpe0, port);
    }
    let gpe1 = s.gpe1;
    if holds_port(gpe1, port) {
        return inside(FadtBlock::Gpe1Blk, gpe1, port);
    }
    None
}
