//! The files of a worked script or storm, whose names differ in their endings alone.

use std::alloc::AllocError;
use std::fs;
use std::rt::Files;

/// What the file of a name and an ending has, or nothing where it can't be read.
pub fn text_of<R: Files + AllocGlobal>(
    rt: &R,
    name: &str,
    ending: &str,
) -> Result<Option<Vec<u8>>, AllocError> {
    let file = format!(in rt.alloc(); "{name}.{ending}")?;
    Ok(fs::read(rt, file.as_str()).ok())
}

/// What the file of a name and an ending has, or this text where it can't be read.
pub fn text_or<R: Files + AllocGlobal>(
    rt: &R,
    name: &str,
    ending: &str,
    otherwise: &str,
) -> Result<Vec<u8>, AllocError> {
    match text_of(rt, name, ending)? {
        Some(text) => Ok(text),
        None => otherwise.as_bytes().to_vec(rt.alloc()),
    }
}
