//! What pictures are drawn of: numbers of employees as heights, and boxes.
ghost use Rattle.std.specs.Prelude.{◌≡◌, ◌<◌, ◌≤◌, ◌++◌, OnOk, string_bytes};
ghost use Rattle.plan_page.specs.Pictures.{box_corner, box_sides, box_text, depth};

use break_rules::NoMemory;
use std::fmt::Write;

/// The height of a picture of slots, in its own units.
const HEIGHT: u64 = 240;

/// How far below the top of the picture, which shows up to `most` employees, a number of employees stands.
pub(crate) fn depth(employees: u32, most: u32) -> u64
    requires { 0 < most }
    ensures depth { result ≡ depth most employees }
    ensures within { result ≤ 240 }
{
    let height = u64::from(employees) * HEIGHT / u64::from(most);
    HEIGHT.saturating_sub(height)
}

/// Adds the upper left corner of a box to a path.
#[tactic(auto, unfolding(crate::specs::Pictures::box_corner))]
fn add_corner(page: &mut String, left: u64, top: u64) -> Result<(), NoMemory>
    ensures { OnOk result (string_bytes page.new ≡ string_bytes page.old ++ box_corner left top) }
{
    write!(page, "M{left} {top}")
}

/// Adds the sides of a box to a path that stands at its upper left corner.
#[tactic(auto, unfolding(crate::specs::Pictures::box_sides))]
fn add_sides(page: &mut String, width: u64, tall: u64) -> Result<(), NoMemory>
    ensures { OnOk result (string_bytes page.new ≡ string_bytes page.old ++ box_sides width tall) }
{
    write!(page, "h{width}v{tall}h-{width}z")
}

/// Adds a box by its left end, its top, its width and its height to a path.
#[tactic(auto, unfolding(crate::specs::Pictures::box_text))]
pub(crate) fn add_box(
    page: &mut String,
    left: u64,
    top: u64,
    width: u64,
    tall: u64,
) -> Result<(), NoMemory>
    ensures { OnOk result (string_bytes page.new ≡ string_bytes page.old ++ box_text left top width tall) }
{
    add_corner(page, left, top)?;
    add_sides(page, width, tall)
}
