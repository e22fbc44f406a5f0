//! The picture of a day's slots: the need as a line over the employees as bars, with the bands where they differ from the need.
ghost use Rattle.std.specs.Prelude.{◌≡◌, ◌+◌, ◌<◌, ◌≤◌, ◌++◌, OnOk, max, string_bytes};
ghost use Rattle.std.specs.List.{flat_map};
ghost use Rattle.shift_instance.specs.Problem.{below, day_slots, slots};
ghost use Rattle.plan_page.specs.Chart.{axis, axis_end, axis_half, axis_mark, axis_top, band_path, bar_text, chart, edge_at, grid_text, half_line, hour_lines, hours_text, layer_ends, layer_name, layer_path, mark_begin, most_employees, need_begin, need_end, need_path, need_step, path_begin, path_end, slot_bar};

use crate::pictures::{add_box, depth};
use break_rules::NoMemory;
use plan_tables::{Attendance, ClockTime, day_slots};
use shift_instance::Instance;
use std::fmt::Write;

/// The picture of a day, without its bars, and the lines at every third hour.
pub(crate) const GRID: &str = "\
<svg class=\"chart\" viewBox=\"0 0 1440 240\" preserveAspectRatio=\"none\" role=\"img\" aria-label=\"the need of each slot over the employees at work\">
<path class=\"grid\" d=\"M180 0V240M360 0V240M540 0V240M720 0V240M900 0V240M1080 0V240M1260 0V240\"/>
";

/// The end of a picture, and the hours below it.
pub(crate) const HOURS: &str = "\
</svg></div>
<div class=\"row\"><span></span><div class=\"hours\"><span>00:00</span><span>03:00</span><span>06:00</span><span>09:00</span><span>12:00</span><span>15:00</span><span>18:00</span><span>21:00</span></div></div>
";

/// A layer of bars.
#[derive(Clone, Copy, Drop)]
pub(crate) enum Layer {
    /// The employees that work as wanted.
    Covered,
    /// The employees that work beyond the band.
    Over,
    /// The employees that lack to the need.
    Under,
    /// The numbers of employees in the band, whoever works.
    Band,
}

impl Layer {
    /// What the layer is called in the page's style.
    fn name(self) -> &'static str
        ensures { result.now ≡ layer_name self }
    {
        match self {
            Layer::Covered => "covered",
            Layer::Over => "over",
            Layer::Under => "under",
            Layer::Band => "band",
        }
    }

    /// From which number of employees on up to which the layer's bar of a slot stands, where so many are wanted at least and at
    /// most, and so many work.
    fn ends(self, least: u32, most: u32, working: u32) -> (u32, u32)
        ensures { result ≡ layer_ends self least most working }
    {
        match self {
            Layer::Covered => (0, working.min(most)),
            Layer::Over => (most, working),
            Layer::Under => (working, least),
            Layer::Band => (least, most),
        }
    }
}

/// An edge of the bands.
#[derive(Clone, Copy, Drop)]
pub(crate) enum Edge {
    /// The least wanted employees.
    Least,
    /// The most wanted employees.
    Most,
}

impl Edge {
    /// Where the edge of the band of a slot is.
    fn at(self, instance: &Instance, t: usize) -> u32
        requires { t < slots instance.now }
        ensures { result ≡ edge_at instance.now self t }
    {
        match self {
            Edge::Least => instance.need(t),
            Edge::Most => instance.need_max(t),
        }
    }
}

/// The greatest of three numbers of employees.
fn greatest(most: u32, wanted: u32, working: u32) -> u32
    ensures { result ≡ max most (max wanted working) }
{
    most.max(wanted.max(working))
}

/// The greatest number of employees that are wanted or work in any slot, and 1 where there is none.
pub(crate) fn most_employees(instance: &Instance, attendance: &Attendance) -> u32
    requires { attendance.now.instance ≡ instance.now }
    ensures most { result ≡ most_employees instance.now attendance.now.duties }
    ensures some { 0 < result }
{
    let mut most = 1;
    for t in 0..instance.slots() {
        most = greatest(most, instance.need_max(t), attendance.working(t));
    }
    most
}

/// Adds a bar from its left end on, between two numbers of employees.
#[tactic(auto, unfolding(crate::specs::Chart::bar_text))]
fn add_bar(
    page: &mut String,
    most: u32,
    left: u64,
    width: u64,
    ends: (u32, u32),
) -> Result<(), NoMemory>
    requires { 0 < most }
    ensures { OnOk result (string_bytes page.new ≡ string_bytes page.old ++ bar_text most left width ends) }
{
    if ends.0 < ends.1 {
        let top = depth(ends.1, most);
        let bottom = depth(ends.0, most);
        add_box(page, left, top, width, bottom.saturating_sub(top))
    } else {
        Ok(())
    }
}

/// Adds the bar of a layer for a slot of the day, counted from 0.
#[tactic(auto, unfolding(crate::specs::Chart::slot_bar))]
fn add_slot_bar(
    page: &mut String,
    instance: &Instance,
    attendance: &Attendance,
    most: u32,
    first: usize,
    layer: Layer,
    n: usize,
) -> Result<(), NoMemory>
    requires instance { attendance.now.instance ≡ instance.now }
    requires most { 0 < most }
    requires within { first + n < slots instance.now }
    ensures { OnOk result (string_bytes page.new ≡ string_bytes page.old ++ slot_bar instance.now attendance.now.duties most first layer n) }
{
    let _valid = instance.slots();
    let parts = instance.parts();
    let t = first + n;
    let ends = layer.ends(
        instance.need(t),
        instance.need_max(t),
        attendance.working(t),
    );
    let left = ClockTime::of_slot(instance, n as u32).minutes;
    add_bar(page, most, left, u64::from(parts.slot_minutes), ends)
}

/// Adds the bars of a layer.
fn add_slot_bars(
    page: &mut String,
    instance: &Instance,
    attendance: &Attendance,
    most: u32,
    first: usize,
    layer: Layer,
) -> Result<(), NoMemory>
    requires instance { attendance.now.instance ≡ instance.now }
    requires most { 0 < most }
    requires within { first + day_slots instance.now ≤ slots instance.now }
    ensures { OnOk result (string_bytes page.new ≡ string_bytes page.old ++ flat_map (slot_bar instance.now attendance.now.duties most first layer) (below (day_slots instance.now))) }
{
    for n in 0..day_slots(instance) {
        add_slot_bar(page, instance, attendance, most, first, layer, n)?;
    }
    Ok(())
}

/// Begins a path.
#[tactic(auto, unfolding(crate::specs::Chart::path_begin))]
pub(crate) fn begin_path(page: &mut String, name: &str) -> Result<(), NoMemory>
    ensures { OnOk result (string_bytes page.new ≡ string_bytes page.old ++ path_begin name.now) }
{
    write!(page, "<path class=\"{name}\" d=\"")
}

/// Ends a path.
#[tactic(auto, unfolding(crate::specs::Chart::path_end))]
pub(crate) fn end_path(page: &mut String) -> Result<(), NoMemory>
    ensures { OnOk result (string_bytes page.new ≡ string_bytes page.old ++ path_end) }
{
    page.push_str("\"/>\n")
}

/// Adds a layer of bars.
#[tactic(auto, unfolding(crate::specs::Chart::layer_path))]
fn add_layer(
    page: &mut String,
    instance: &Instance,
    attendance: &Attendance,
    most: u32,
    first: usize,
    layer: Layer,
) -> Result<(), NoMemory>
    requires instance { attendance.now.instance ≡ instance.now }
    requires most { 0 < most }
    requires within { first + day_slots instance.now ≤ slots instance.now }
    ensures { OnOk result (string_bytes page.new ≡ string_bytes page.old ++ layer_path instance.now attendance.now.duties most first layer) }
{
    begin_path(page, layer.name())?;
    add_slot_bars(page, instance, attendance, most, first, layer)?;
    end_path(page)
}

/// Adds an edge of the band of a slot of the day, counted from 0, to the line of that edge.
#[tactic(auto, unfolding(crate::specs::Chart::need_step))]
fn add_need_step(
    page: &mut String,
    instance: &Instance,
    most: u32,
    first: usize,
    edge: Edge,
    n: usize,
) -> Result<(), NoMemory>
    requires most { 0 < most }
    requires within { first + n < slots instance.now }
    ensures { OnOk result (string_bytes page.new ≡ string_bytes page.old ++ need_step instance.now most first edge n) }
{
    let _valid = instance.slots();
    let top = depth(edge.at(instance, first + n), most);
    let right = ClockTime::of_slot(instance, n as u32 + 1).minutes;
    write!(page, "V{top}H{right}")
}

/// Adds the steps of the line of an edge of the bands.
fn add_need_steps(
    page: &mut String,
    instance: &Instance,
    most: u32,
    first: usize,
    edge: Edge,
) -> Result<(), NoMemory>
    requires most { 0 < most }
    requires within { first + day_slots instance.now ≤ slots instance.now }
    ensures { OnOk result (string_bytes page.new ≡ string_bytes page.old ++ flat_map (need_step instance.now most first edge) (below (day_slots instance.now))) }
{
    for n in 0..day_slots(instance) {
        add_need_step(page, instance, most, first, edge, n)?;
    }
    Ok(())
}

/// Begins the line of an edge of the bands.
#[tactic(auto, unfolding(crate::specs::Chart::need_begin))]
fn begin_need(page: &mut String) -> Result<(), NoMemory>
    ensures { OnOk result (string_bytes page.new ≡ string_bytes page.old ++ need_begin) }
{
    page.push_str("<path class=\"need\" d=\"M0 240")
}

/// Ends the line of an edge of the bands.
#[tactic(auto, unfolding(crate::specs::Chart::need_end))]
fn end_need(page: &mut String) -> Result<(), NoMemory>
    ensures { OnOk result (string_bytes page.new ≡ string_bytes page.old ++ need_end) }
{
    page.push_str("V240\"/>\n")
}

/// Adds an edge of the bands as a line.
#[tactic(auto, unfolding(crate::specs::Chart::need_path))]
fn add_need(
    page: &mut String,
    instance: &Instance,
    most: u32,
    first: usize,
    edge: Edge,
) -> Result<(), NoMemory>
    requires most { 0 < most }
    requires within { first + day_slots instance.now ≤ slots instance.now }
    ensures { OnOk result (string_bytes page.new ≡ string_bytes page.old ++ need_path instance.now most first edge) }
{
    begin_need(page)?;
    add_need_steps(page, instance, most, first, edge)?;
    end_need(page)
}

/// Adds the bands as a strip with a line above it, where the day has some.
#[tactic(auto, unfolding(crate::specs::Chart::band_path))]
fn add_bands(
    page: &mut String,
    instance: &Instance,
    attendance: &Attendance,
    most: u32,
    first: usize,
    banded: bool,
) -> Result<(), NoMemory>
    requires instance { attendance.now.instance ≡ instance.now }
    requires most { 0 < most }
    requires within { first + day_slots instance.now ≤ slots instance.now }
    ensures { OnOk result (string_bytes page.new ≡ string_bytes page.old ++ band_path instance.now attendance.now.duties most first banded) }
{
    if banded {
        add_layer(page, instance, attendance, most, first, Layer::Band)?;
        add_need(page, instance, most, first, Edge::Most)
    } else {
        Ok(())
    }
}

/// Begins the numbers beside a picture, with the most employees at its top.
#[tactic(auto, unfolding(crate::specs::Chart::axis_top))]
fn begin_axis(page: &mut String, most: u32) -> Result<(), NoMemory>
    ensures { OnOk result (string_bytes page.new ≡ string_bytes page.old ++ axis_top most) }
{
    write!(
        page,
        "<div class=\"row\"><span class=\"axis\"><span>{most} employees</span>"
    )
}

/// Begins a number that stands so many hundredths of the picture below its top.
#[tactic(auto, unfolding(crate::specs::Chart::mark_begin))]
fn begin_mark(page: &mut String, part: u64) -> Result<(), NoMemory>
    ensures { OnOk result (string_bytes page.new ≡ string_bytes page.old ++ mark_begin part) }
{
    write!(page, "<span style=\"top:{part}%\">")
}

/// Adds a number of employees so many hundredths of the picture below its top.
#[tactic(auto, unfolding(crate::specs::Chart::axis_mark))]
fn add_mark(page: &mut String, employees: u32, part: u64) -> Result<(), NoMemory>
    ensures { OnOk result (string_bytes page.new ≡ string_bytes page.old ++ axis_mark employees part) }
{
    begin_mark(page, part)?;
    write!(page, "{employees}</span>")
}

/// Adds half of the most employees where they stand, unless the most is one.
#[tactic(auto, unfolding(crate::specs::Chart::axis_half))]
fn add_half(page: &mut String, most: u32) -> Result<(), NoMemory>
    requires { 0 < most }
    ensures { OnOk result (string_bytes page.new ≡ string_bytes page.old ++ axis_half most) }
{
    if 1 < most {
        let top = depth(most / 2, most);
        add_mark(page, most / 2, top * 100 / 240)
    } else {
        Ok(())
    }
}

/// Ends the numbers beside a picture, with none at its bottom.
#[tactic(auto, unfolding(crate::specs::Chart::axis_end))]
fn end_axis(page: &mut String) -> Result<(), NoMemory>
    ensures { OnOk result (string_bytes page.new ≡ string_bytes page.old ++ axis_end) }
{
    page.push_str("<span>0</span></span>")
}

/// Adds the numbers beside a picture.
#[tactic(auto, unfolding(crate::specs::Chart::axis))]
fn add_axis(page: &mut String, most: u32) -> Result<(), NoMemory>
    requires { 0 < most }
    ensures { OnOk result (string_bytes page.new ≡ string_bytes page.old ++ axis most) }
{
    begin_axis(page, most)?;
    add_half(page, most)?;
    end_axis(page)
}

/// Begins the picture, with the lines at every third hour.
#[tactic(auto, unfolding(crate::specs::Chart::hour_lines))]
fn add_hour_lines(page: &mut String) -> Result<(), NoMemory>
    ensures { OnOk result (string_bytes page.new ≡ string_bytes page.old ++ hour_lines) }
{
    page.push_str(GRID)
}

/// Adds the line at half the employees.
#[tactic(auto, unfolding(crate::specs::Chart::half_line))]
fn add_half_line(page: &mut String, top: u64) -> Result<(), NoMemory>
    ensures { OnOk result (string_bytes page.new ≡ string_bytes page.old ++ half_line top) }
{
    write!(page, "<path class=\"grid\" d=\"M0 {top}H1440\"/>\n")
}

/// Begins the picture, with the lines at every third hour and that at half the employees.
#[tactic(auto, unfolding(crate::specs::Chart::grid_text))]
fn add_grid(page: &mut String, most: u32) -> Result<(), NoMemory>
    requires { 0 < most }
    ensures { OnOk result (string_bytes page.new ≡ string_bytes page.old ++ grid_text most) }
{
    let top = depth(most / 2, most);
    add_hour_lines(page)?;
    add_half_line(page, top)
}

/// Ends the picture, with the hours below it.
#[tactic(auto, unfolding(crate::specs::Chart::hours_text))]
fn add_hours(page: &mut String) -> Result<(), NoMemory>
    ensures { OnOk result (string_bytes page.new ≡ string_bytes page.old ++ hours_text) }
{
    page.push_str(HOURS)
}

/// Adds the picture of the day that begins at a slot, where so many employees reach to the top, with the bands where the day has some.
#[tactic(auto, unfolding(crate::specs::Chart::chart))]
pub(crate) fn add_chart(
    page: &mut String,
    instance: &Instance,
    attendance: &Attendance,
    most: u32,
    first: usize,
    banded: bool,
) -> Result<(), NoMemory>
    requires instance { attendance.now.instance ≡ instance.now }
    requires most { 0 < most }
    requires within { first + day_slots instance.now ≤ slots instance.now }
    ensures { OnOk result (string_bytes page.new ≡ string_bytes page.old ++ chart instance.now attendance.now.duties most first banded) }
{
    add_axis(page, most)?;
    add_grid(page, most)?;
    add_layer(page, instance, attendance, most, first, Layer::Covered)?;
    add_layer(page, instance, attendance, most, first, Layer::Over)?;
    add_layer(page, instance, attendance, most, first, Layer::Under)?;
    add_bands(page, instance, attendance, most, first, banded)?;
    add_need(page, instance, most, first, Edge::Least)?;
    add_hours(page)
}
