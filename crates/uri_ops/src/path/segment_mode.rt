//! How the segments of a path are appended while its dot segments are removed.
ghost use Rattle.std.specs.Prelude.{◌≡◌, ℕ, List, Bool, OnOk, true};
ghost use Rattle.uri_pct.specs.Prelude.{Pushes};

use std::alloc::AllocError;

/// How segments of a path are appended: as they are, or changed.
pub(crate) trait SegmentMode: Copy + Drop {
    ghost pushed_text: { Self → List ℕ → List ℕ };

    ghost takes: { Self → List ℕ → Bool };

    /// Appends segments of a path, with the `/` between them.
    fn push(self, piece: &str, out: &mut String) -> Result<(), AllocError>
        requires { takes self piece.now ≡ true }
        ensures { OnOk result (Pushes out.old out.new (pushed_text self piece.now)) };
}

/// Appends segments as they are.
#[derive(Clone, Copy)]
pub(crate) struct Copied;

impl SegmentMode for Copied {
    ghost pushed_text = { λ _ text. text };

    ghost takes = { λ _ _. true };

    /// Appends the segments.
    #[inline(always)]
    fn push(self, piece: &str, out: &mut String) -> Result<(), AllocError> {
        out.push_str(piece)
    }
}
