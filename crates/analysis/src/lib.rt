// Analysis of a block: a palette for its samples, and which predictor entries it reuses.
#![tactic(auto)]

ghost use Rattle.std.specs.Prelude.{◌≡◌, true, [], ◌∷◌, ◌-◌, ◌*◌, ◌≤◌, leb};
ghost use Rattle.base.specs.Tests.{refusal};
ghost use Rattle.refusal.specs.Refusal.{code_of};
ghost use Rattle.colors.specs.Table.{none_above};
ghost use Rattle.model.specs.Domain.{depth_in, config_in};
ghost use Rattle.analyse.specs.Analyse.{as_analysed, analysis_of};
ghost use Rattle.blocks.specs.Blocks.{entries_of};
ghost use Rattle.analysis.specs.Analyze.{as_analyzed, tolerance_at, lent_in, few_colors, answer_of, analyze_of, analyze_with_of};

use choose::Painting;
use colors::ColorIndex;
use model::{PaletteConfig, PaletteCu, PalettePredictor, SourceBlock};
use refusal::Refusal;

// The bits of a depth over 8.
pub fn over_eight(depth: u8) -> u64
    requires { depth_in depth ≡ true }
    ensures { (result ≡ depth - 8) × (result ≤ 8) }
{
    u64::from(depth - 8)
}

// The palette of a block's colours, or 13; and the counter after it.
pub fn choose_palette(
    cells: &[u64; 1024],
    size: usize,
    depth: u8,
    p: PalettePredictor,
    counter: &mut ColorIndex,
    tol: u64,
) -> Result<Painting, Refusal>
    requires { (size ≤ 32) × (depth_in depth ≡ true) × (p.size ≤ 128) × (none_above counter.old.generation counter.old.stamp ≡ true) }
    ensures { as_analysed result counter.new ≡ analysis_of counter.old cells.now (size * size) (depth - 8) tol 64 (entries_of p) }
{
    let samples = &cells[..extent::area(size)];
    let packed = blocks::pack_predictor(p.entries);
    analyse::analyse(
        samples,
        over_eight(depth),
        tol,
        64,
        &packed[..p.size],
        counter,
    )
}

// 13, or the block made; and the counter after it.
fn choose_block(
    cells: &[u64; 1024],
    c: PaletteConfig,
    size: usize,
    p: PalettePredictor,
    counter: &mut ColorIndex,
    tol: u64,
) -> Result<PaletteCu, Refusal>
    requires { (size ≤ 32) × (depth_in c.bd_luma ≡ true) × (p.size ≤ 128) × (none_above counter.old.generation counter.old.stamp ≡ true) }
    ensures { as_analyzed result counter.new ≡ answer_of (refusal ((few_colors cells.now (size * size), 13) ∷ [])) cells.now c size p counter.old tol }
{
    let painting = choose_palette(cells, size, c.bd_luma, p, counter, tol)?;
    Ok(blocks::made(c, size, p.size, tol, painting))
}

// 5 or 7: predictor and counter are in the domain, and the tolerance is at most 16.
pub fn check_lent(
    c: PaletteConfig,
    p: PalettePredictor,
    counter: &ColorIndex,
    tol: u64,
) -> Result<(), Refusal>
    ensures { code_of result ≡ refusal ((lent_in c p counter.now, 5) ∷ (leb tol 16, 7) ∷ []) }
{
    let holds = domain::predictor_in(c.chroma_idc, c.bd_luma, c.bd_chroma, p)
        & counter.stamps_hold();
    if !holds {
        return Err(Refusal::Predictor);
    }
    if tol > 16 {
        return Err(Refusal::Block);
    }
    Ok(())
}

// 5, 7 or 13, or the block made; and the counter after it.
fn analyze_cells(
    cells: &[u64; 1024],
    c: PaletteConfig,
    size: usize,
    p: PalettePredictor,
    counter: &mut ColorIndex,
    tol: u64,
) -> Result<PaletteCu, Refusal>
    requires { (size ≤ 32) × (depth_in c.bd_luma ≡ true) }
    ensures { as_analyzed result counter.new ≡ answer_of (refusal ((lent_in c p counter.old, 5) ∷ (leb tol 16, 7) ∷ (few_colors cells.now (size * size), 13) ∷ []))
        cells.now c size p counter.old tol }
{
    check_lent(c, p, counter, tol)?;
    choose_block(cells, c, size, p, counter, tol)
}

// The block with a palette for its samples at a tolerance lent, or a refusal; and the counter after it.
pub fn analyze_with(
    luma: &[u16],
    cb: &[u16],
    cr: &[u16],
    c: PaletteConfig,
    g: SourceBlock,
    p: PalettePredictor,
    counter: &mut ColorIndex,
    tol: u64,
) -> Result<PaletteCu, Refusal>
    ensures { as_analyzed result counter.new ≡ analyze_with_of luma.now cb.now cr.now c g p counter.old tol }
{
    let mut cells = [0; 1024];
    source::fetch_block(luma, cb, cr, c, g, &mut cells)?;
    analyze_cells(&cells, c, g.size, p, counter, tol)
}

// The tolerance of the luma QP and the lossless flag.
pub fn tolerance_at(c: PaletteConfig) -> u64
    requires { config_in c ≡ true }
    ensures { result ≡ tolerance_at c }
{
    quant::tolerance(c.lossless, quant::step(c.qp_y))
}

// The block with a palette for its samples at the luma QP's tolerance, or a refusal; and the counter after it.
pub fn analyze_palette(
    luma: &[u16],
    cb: &[u16],
    cr: &[u16],
    c: PaletteConfig,
    g: SourceBlock,
    p: PalettePredictor,
    counter: &mut ColorIndex,
) -> Result<PaletteCu, Refusal>
    ensures { as_analyzed result counter.new ≡ analyze_of luma.now cb.now cr.now c g p counter.old }
{
    let mut cells = [0; 1024];
    source::fetch_block(luma, cb, cr, c, g, &mut cells)?;
    analyze_cells(&cells, c, g.size, p, counter, tolerance_at(c))
}
