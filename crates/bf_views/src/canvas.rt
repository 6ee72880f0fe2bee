//! What a grid is shown on.
ghost use Rattle.std.specs.Prelude.{◌≡◌, IfSome, IfNone, option_map};
ghost use Rattle.bf_views.specs.Canvases.{IsWidthBy, SaysColumns, columns_said, has_colors_in};

/// The least width of a grid, in characters.
const LEAST_WIDTH: u32 = 20;

/// The greatest width of a grid, in characters.
const GREATEST_WIDTH: u32 = 10_000;

/// The width of a grid where nothing says another, in characters.
const USUAL_WIDTH: u32 = 80;

/// How wide a grid is, in characters, and whether it is coloured, where the line doesn't say so.
#[derive(Clone, Copy, Debug, PartialEq, Eq)]
pub struct Canvas {
    pub width: u32,
    pub colored: bool,
}

/// Reads a width in characters; None where the text isn't a whole number from 20 to 10,000.
fn width_said(text: &str) -> Option<u32>
    ensures some { IfSome result (λ width. SaysColumns text.now × (width ≡ columns_said text.now)) }
    ensures none { IfNone result (SaysColumns text.now → ⊥) }
{
    match text.parse::<u32>() {
        Ok(width) if LEAST_WIDTH <= width && width <= GREATEST_WIDTH => Some(width),
        _ => None,
    }
}

/// The width that COLUMNS says; 80 where it isn't set, or isn't a whole number from 20 to 10,000.
fn width_by(columns: Option<&str>) -> u32
    ensures { IsWidthBy (option_map (λ c. c.now) columns.entry) result }
{
    let Some(text) = columns else {
        return USUAL_WIDTH;
    };
    match width_said(text) {
        Some(width) => width,
        None => USUAL_WIDTH,
    }
}

/// Whether a grid has colours: on a terminal, unless NO_COLOR is set and not empty, or TERM is `dumb`.
fn has_colors(is_terminal: bool, no_color: Option<&str>, term: Option<&str>) -> bool
    ensures { result ≡ has_colors_in is_terminal (option_map (λ c. c.now) no_color.entry)
        (option_map (λ t. t.now) term.entry) }
{
    is_terminal && no_color.unwrap_or("").is_empty() && term.unwrap_or("") != "dumb"
}

impl Canvas {
    /// Makes the canvas for these values of COLUMNS, NO_COLOR and TERM, None where not set: as wide as COLUMNS, if that
    /// is from 20 to 10,000, else 80; coloured on a terminal, unless NO_COLOR is set and not empty, or TERM is `dumb`.
    pub fn of(
        is_terminal: bool,
        columns: Option<&str>,
        no_color: Option<&str>,
        term: Option<&str>,
    ) -> Canvas
        ensures width { IsWidthBy (option_map (λ c. c.now) columns.entry) result.width }
        ensures colored { result.colored
            ≡ has_colors_in is_terminal (option_map (λ c. c.now) no_color.entry)
            (option_map (λ t. t.now) term.entry) }
    {
        Canvas {
            width: width_by(columns),
            colored: has_colors(is_terminal, no_color, term),
        }
    }
}
