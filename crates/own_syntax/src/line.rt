//! The lines that are written of routes.

use crate::route::Route;
use std::alloc::AllocError;
use std::fmt::Write;
use syn::Path;

/// Adds the route's line: its method, its path, what it leads to, and the names of its parameters.
pub(crate) fn add_route(out: &mut String, route: &Route) -> Result<(), AllocError> {
    write!(
        out,
        "{} {} ",
        route.method.text(),
        route.path.literal.text()
    )?;
    add_path(out, &route.target)?;
    for parameter in route.parameters.iter() {
        write!(out, " {}", parameter.name.text())?;
    }
    if let Some(guard) = &route.guard {
        write!(out, " if {}", guard.condition.text())?;
    }
    out.push('\n')
}

/// Adds a path's words, with `::` between them.
fn add_path(out: &mut String, path: &Path) -> Result<(), AllocError> {
    let mut is_first = true;
    for segment in path.segments.iter() {
        if !is_first {
            out.push_str("::")?;
        }
        out.push_str(segment.ident.text())?;
        is_first = false;
    }
    Ok(())
}
