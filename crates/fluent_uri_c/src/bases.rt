//! A base of references, which a batch parses once.
ghost use Rattle.fluent_uri.specs.Prelude.{reference_text};
ghost use Rattle.fluent_uri_c.specs.Results.{IsReturnedAs, IsTargetReturned};

use crate::errors::{Error, Rejection};
use crate::numbered::{is_basic, prefers_relative_path, rule_set};
use crate::texts::{self, parsed};
use fluent_uri::{Iri, IriRef, Uri};
use std::alloc::Global;
use uri_parts::kind::{IriKind, IriRefKind, UriKind, UriRefKind};

/// A base that is parsed: a URI, an IRI, or why it is rejected.
#[derive(Clone, Copy)]
pub enum Base<'a> {
    Uri(Uri<&'a str>),
    Iri(Iri<&'a str>),
    Rejected(Rejection),
}

impl<'a> Base<'a> {
    ghost use Rattle.fluent_uri_c.specs.Bases.{IsBaseOf, normal_target_by, reference_by, target_by};

    /// Parses bytes as a base of the kind with this number of the header.
    pub fn parse(kind: u32, bytes: &'a [u8]) -> Base<'a>
        ensures { IsBaseOf kind bytes.now result }
    {
        match kind {
            0 => match parsed::<UriKind>(bytes) {
                Ok(base) => Base::Uri(base),
                Err(why) => Base::Rejected(why),
            },
            2 => match parsed::<IriKind>(bytes) {
                Ok(base) => Base::Iri(base),
                Err(why) => Base::Rejected(why),
            },
            _ => Base::Rejected(Rejection::of(Error::InvalidArgument)),
        }
    }

    /// Returns the target of a reference against the base, by options of the header.
    pub fn target(
        &self,
        alloc: Global,
        options: u32,
        reference: &[u8],
    ) -> Result<IriRef<String>, Rejection>
        ensures { IsTargetReturned reference_text
            (target_by options self.now reference.now) result }
    {
        let Some(is_basic) = is_basic(options) else {
            return Err(Rejection::of(Error::InvalidArgument));
        };
        match self {
            Base::Uri(base) => {
                let target = texts::target_from::<UriRefKind>(alloc, is_basic, base, reference)?;
                Ok(IriRef::from(target))
            }
            Base::Iri(base) => {
                let target = texts::target_from::<IriRefKind>(alloc, is_basic, base, reference)?;
                Ok(IriRef::from(target))
            }
            Base::Rejected(why) => Err(*why),
        }
    }

    /// Returns the normal form of the target of a reference against the base, by options of the
    /// header.
    pub fn normal_target(
        &self,
        alloc: Global,
        options: u32,
        reference: &[u8],
    ) -> Result<IriRef<String>, Rejection>
        ensures { IsReturnedAs reference_text
            (normal_target_by options self.now reference.now) result }
    {
        let Some(rules) = rule_set(options) else {
            return Err(Rejection::of(Error::InvalidArgument));
        };
        match self {
            Base::Uri(base) => Ok(IriRef::from(texts::normal_target_from::<UriRefKind>(
                alloc, base, reference, rules,
            )?)),
            Base::Iri(base) => Ok(IriRef::from(texts::normal_target_from::<IriRefKind>(
                alloc, base, reference, rules,
            )?)),
            Base::Rejected(why) => Err(*why),
        }
    }

    /// Returns a reference that leads from the base to a target, by options of the header.
    pub fn reference(
        &self,
        alloc: Global,
        options: u32,
        target: &[u8],
    ) -> Result<IriRef<String>, Rejection>
        ensures { IsReturnedAs reference_text (reference_by options self.now target.now) result }
    {
        let Some(prefers) = prefers_relative_path(options) else {
            return Err(Rejection::of(Error::InvalidArgument));
        };
        match self {
            Base::Uri(base) => {
                Ok(IriRef::from(texts::reference_from::<UriKind>(alloc, base, target, prefers)?))
            }
            Base::Iri(base) => {
                Ok(IriRef::from(texts::reference_from::<IriKind>(alloc, base, target, prefers)?))
            }
            Base::Rejected(why) => Err(*why),
        }
    }
}
