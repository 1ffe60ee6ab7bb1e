//! Why no reference was built.
use thiserror::Error;

/// Why no reference was built.
///
/// The authority `a` and the path `b` are rejected as `NonemptyRootlessPath`.
#[derive(Clone, Copy, Debug, PartialEq, Eq, Error)]
pub enum BuildError {
    /// There is an authority, and the path is neither empty nor begins with `/` (RFC 3986, section
    /// 3.3).
    #[error("when authority is present, path should either be empty or start with '/'")]
    NonemptyRootlessPath,
    /// There is no authority, and the path begins with `//` (RFC 3986, section 3.3).
    #[error("when authority is not present, path should not start with \"//\"")]
    PathStartsWithDoubleSlash,
    /// There is neither a scheme nor an authority, and the first segment of the path holds `:` (RFC
    /// 3986, section 4.2).
    #[error("when neither scheme nor authority is present, first path segment should not contain ':'")]
    FirstPathSegmentContainsColon,
    /// Allocation failed.
    #[error("out of memory")]
    OutOfMemory,
}
