//! Names of cranes.

use qc_model::Crane;
use qc_num::OutOfMemory;
use qc_page::{Page, Place, is_near, text_of};
use std::alloc::Global;

/// The name of a crane.
fn name_of(crane: &Crane) -> &str {
    text_of(crane.name.as_bytes())
}

/// The nearest name of a crane.
fn nearest_crane<'a>(
    alloc: Global,
    name: &str,
    cranes: &'a [Crane],
) -> Result<Option<&'a str>, OutOfMemory> {
    for crane in cranes {
        let other = name_of(crane);
        if is_near(alloc, name, other)? {
            return Ok(Some(other));
        }
    }
    Ok(None)
}

/// Says that a name is that of no crane.
pub(crate) fn say_no_crane(page: &mut Page, place: Place<'_>, name: &[u8], cranes: &[Crane]) {
    let near = nearest_crane(page.alloc(), text_of(name).trim(), cranes);
    let Some(near) = page.unless_short(near) else {
        return;
    };
    page.on(place).text("no crane is named ").shown(name);
    if let Some(near) = near {
        return page.text("; the nearest is ").text(near).end();
    }
    let mut between = "; the cranes are ";
    for crane in cranes {
        page.text(between).text(name_of(crane));
        between = ", ";
    }
    page.end()
}
