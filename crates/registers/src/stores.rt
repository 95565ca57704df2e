// Groups of the state stored in their registers.
ghost use Rattle.std.specs.Prelude.{◌≡◌};
ghost use Rattle.registers.specs.Stores.{stores, place_cells, length_cells, setup_cells, width_cells, emphasis_cells, face_cells, printing_cells, derived_cells, settings_stored};

use crate::derived::store_widths;
use crate::groups::{flag, pitch_number};
use crate::{
    ACROSS, AUTO_FEED, BOLD, COUNT, COUNTRY, DOTS_ACROSS, DOTS_DOWN, DOUBLE_HEIGHT, DOUBLE_STRIKE,
    DOWN, DOWNLOAD, DRAFT, FONT, ITALIC, ITALIC_TABLE, LEFT, LINE, OUTLINE, PAGE, PAPER_WIDTH,
    PITCH, PROPORTIONAL, REDUCED, RIGHT, SKIP, SPACING, STYLE, SUBSCRIPT, SUPERSCRIPT, UNDERLINE,
    UPPER_PRINTS, WIDE, WIDE_ONCE,
};
use measures::styles::style_of;
use printer::settings::{Emphasis, Face, Margins, Paper, Script, Settings, Setup, Width};
use printer::state::Place;

pub(crate) fn store_place(m: &mut [u32; COUNT], x: Place)
    ensures { m.new ≡ stores (place_cells x) m.old }
{
    m[ACROSS] = x.across.0;
    m[DOWN] = x.down.0;
}

fn store_lengths(m: &mut [u32; COUNT], x: Margins, y: Paper)
    ensures { m.new ≡ stores (length_cells x y) m.old }
{
    m[LEFT] = x.left.0;
    m[RIGHT] = x.right.0;
    m[PAGE] = y.page.0;
    m[SKIP] = y.skip.0;
    m[LINE] = y.line.0;
}

pub(crate) fn store_setup(m: &mut [u32; COUNT], s: Setup)
    ensures { m.new ≡ stores (setup_cells s) m.old }
{
    m[DOTS_ACROSS] = s.resolution.dots_across();
    m[DOTS_DOWN] = s.resolution.dots_down();
    m[AUTO_FEED] = flag(s.autofeed);
    m[PAPER_WIDTH] = s.width.0;
}

fn store_width(m: &mut [u32; COUNT], w: Width)
    ensures { m.new ≡ stores (width_cells w) m.old }
{
    m[PITCH] = pitch_number(w.pitch);
    m[SPACING] = w.spacing as u32;
    m[WIDE] = flag(w.wide);
    m[WIDE_ONCE] = flag(w.wideonce);
    m[REDUCED] = flag(w.reduced);
    m[PROPORTIONAL] = flag(w.proportional);
}

fn store_emphasis(m: &mut [u32; COUNT], e: Emphasis, s: Script)
    ensures { m.new ≡ stores (emphasis_cells e s) m.old }
{
    m[BOLD] = flag(e.bold);
    m[DOUBLE_STRIKE] = flag(e.doublestrike);
    m[ITALIC] = flag(e.italic);
    m[UNDERLINE] = flag(e.underline);
    m[SUPERSCRIPT] = flag(s.superscript);
    m[SUBSCRIPT] = flag(s.subscript);
}

fn store_face(m: &mut [u32; COUNT], f: Face)
    ensures { m.new ≡ stores (face_cells f) m.old }
{
    m[FONT] = f.font as u32;
    m[COUNTRY] = f.country as u32;
    m[OUTLINE] = f.outline as u32;
    m[DOUBLE_HEIGHT] = flag(f.doubleheight);
    m[ITALIC_TABLE] = flag(f.italictable);
    m[DOWNLOAD] = flag(f.download);
}

fn store_printing(m: &mut [u32; COUNT], draft: bool, upperprints: bool)
    ensures { m.new ≡ stores (printing_cells draft upperprints) m.old }
{
    m[DRAFT] = flag(draft);
    m[UPPER_PRINTS] = flag(upperprints);
}

// What follows from the settings.
fn store_derived(m: &mut [u32; COUNT], s: Settings)
    ensures { m.new ≡ stores (derived_cells s) m.old }
{
    m[STYLE] = style_of(s) as u32;
    store_widths(m, s.setup.resolution, s.width);
}

// The settings, with what follows from them.
#[tactic(auto, unfolding(crate::specs::Stores::settings_stored))]
pub(crate) fn store_settings(m: &mut [u32; COUNT], s: Settings)
    ensures { m.new ≡ settings_stored s m.old }
{
    store_lengths(m, s.margins, s.paper);
    store_setup(m, s.setup);
    store_width(m, s.width);
    store_emphasis(m, s.emphasis, s.script);
    store_face(m, s.face);
    store_printing(m, s.draft, s.upperprints);
    store_derived(m, s);
}
