//! The page of the plan.
use crate::two_days::{banded, instance, judge, rows};
use plan_page::{PageTexts, Section, plan_page};
use std::alloc::{AllocError, Global};
use std::process::Abort;
use std::test::Fail;

/// A text of its own.
fn section(alloc: Global, title: &str, text: &str) -> Result<Section, AllocError> {
    Ok(Section {
        title: String::from_str(alloc, title)?,
        text: String::from_str(alloc, text)?,
    })
}

/// What a page says beside its plan, below a heading: the first of the days alone has a name.
fn texts(alloc: Global, heading: &str) -> Result<PageTexts, AllocError> {
    let mut texts = PageTexts {
        heading: String::from_str(alloc, heading)?,
        standing: String::from_str(alloc, "no bound")?,
        days: Vec::new(alloc),
        above: Vec::new(alloc),
        below: Vec::new(alloc),
    };
    texts.days.push(String::from_str(alloc, "Mon<day>")?)?;
    texts.above.push(section(alloc, "A & B", "a  <b>\n")?)?;
    texts.below.push(section(alloc, "C", "c\n")?)?;
    Ok(texts)
}

/// The page of the plan, below a heading with signs that mean something in hypertext.
fn page(rt: &impl Abort, alloc: Global) -> Result<String, Fail> {
    let instance = instance(alloc)?;
    let rows = rows(alloc)?;
    judge(rt, &instance, &rows);
    Ok(plan_page(alloc, &instance, &rows, &texts(alloc, "ward & <desk>")?)?)
}

#[test]
fn texts_are_escaped(rt: HostRuntime) -> Result<(), Fail> {
    let page = page(&rt, rt.alloc())?;
    assert!(rt; page.as_str().contains("<h1>ward &amp; &lt;desk&gt;</h1>"));
    assert!(rt; page.as_str().contains(" M&lt;&amp;&gt;<br>"));
    assert!(rt; page.as_str().contains(" N,&quot;x&quot;<br>"));
    assert!(rt; !page.as_str().contains("M<"));
    Ok(())
}

#[test]
fn the_numbers_are_those_of_the_summary(rt: HostRuntime) -> Result<(), Fail> {
    let page = page(&rt, rt.alloc())?;
    for line in [
        "<th scope=\"row\">Excess</th><td>12</td><td>1</td><td>12</td>",
        "<th scope=\"row\">Shortage</th><td>9</td><td>2</td><td>18</td>",
        "<th scope=\"row\">Shifts used</th><td>3</td><td>3</td><td>9</td>",
        "<td>5</td><td>17:00</td><td>20:00</td><td>12:00</td><td>9:00</td>",
        "<tr><td>2</td><td>08:00</td><td>2</td><td>0</td><td>4</td></tr>",
    ] {
        assert!(rt; page.as_str().contains(line));
    }
    Ok(())
}

#[test]
fn a_duty_over_midnight_stands_on_both_days(rt: HostRuntime) -> Result<(), Fail> {
    let page = page(&rt, rt.alloc())?;
    assert_eq!(rt; page.as_str().matches("22:00-02:00 x1").count(), 4);
    assert_eq!(rt; page.as_str().matches("(from the day before)").count(), 2);
    // The last two hours of a day, and the first two of the next.
    assert_eq!(rt;
        page.as_str()
            .matches("\"work\" d=\"M1320 2h120v12h-120z\"")
            .count(),
        2
    );
    assert_eq!(rt;
        page.as_str()
            .matches("\"work\" d=\"M0 2h120v12h-120z\"")
            .count(),
        2
    );
    Ok(())
}

#[test]
fn bands_are_shown_as_ranges_and_as_a_strip(rt: HostRuntime) -> Result<(), Fail> {
    let alloc = rt.alloc();
    let instance = banded(alloc)?;
    let rows = rows(alloc)?;
    judge(&rt, &instance, &rows);
    let page = plan_page(alloc, &instance, &rows, &texts(alloc, "ward")?)?;
    for line in [
        "<th scope=\"row\">Excess</th><td>9</td><td>1</td><td>9</td>",
        "<td>5</td><td>17:00-21:00</td><td>20:00</td><td>9:00</td><td>9:00</td>",
        "<tr><td>1</td><td>10:00</td><td>2-3</td><td>1</td><td>2</td></tr>",
        "Hours wanted 9:00-13:00, worked 16:00, over 5:00, under 1:00.",
        "Hours wanted 8:00, worked 4:00, over 4:00, under 8:00.",
        "\"band\" d=\"M480 0h60v80h-60zM540 0h60v80h-60zM600 0h60v80h-60zM660 0h60v80h-60z\"",
    ] {
        assert!(rt; page.as_str().contains(line));
    }
    // What the strip means, and the strip of the first day.
    assert_eq!(rt; page.as_str().matches("\"band\"").count(), 2);
    Ok(())
}

#[test]
fn days_have_names_and_texts_stand_above_and_below_them(rt: HostRuntime) -> Result<(), Fail> {
    let page = page(&rt, rt.alloc())?;
    let above = page
        .as_str()
        .find("<h2>A &amp; B</h2>\n<pre>a  &lt;b&gt;\n</pre>")
        .ok_or("above")?;
    let first = page
        .as_str()
        .find("<h2>Day 1, Mon&lt;day&gt;</h2>")
        .ok_or("first day")?;
    let second = page.as_str().find("<h2>Day 2</h2>").ok_or("second day")?;
    let below = page
        .as_str()
        .find("<h2>C</h2>\n<pre>c\n</pre>")
        .ok_or("below")?;
    assert!(rt; above < first && first < second && second < below);
    Ok(())
}

#[test]
fn a_page_without_bands_has_no_strip(rt: HostRuntime) -> Result<(), Fail> {
    let page = page(&rt, rt.alloc())?;
    assert!(rt; !page.as_str().contains("band"));
    Ok(())
}
