//! `scheme`, `has_scheme` and `Debug`, which are written for each kind.
mod iris;
mod uris;
