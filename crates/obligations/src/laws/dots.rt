//! Paths from which dot segments are removed (RFC 3986, section 5.2.4).
ghost use Rattle.std.specs.Prelude.{◌≡◌, ◌≤◌, ◌+◌, ◌++◌, [], false, length, true};
ghost use Rattle.fluent_uri.specs.Prelude.{EndsInSlash, IsAbemptyPath, IsAbsolute, directory, lacks_dot_segments, remove_dot_segments, run};

use fluent_uri::laws;

/// A caller that opens files below a folder proves that no segment leads out of it, and that the
/// path fits where the longer one did.
pub fn stays_within(path: &str)
    requires { IsAbsolute path.now }
    ensures within { lacks_dot_segments (remove_dot_segments path.now) ≡ true }
    ensures short { length (remove_dot_segments path.now) ≤ length path.now }
{
    laws::no_dot_segment_is_left();
}

/// A caller that has looked for dot segments and found none proves that it may use the path as it
/// is.
pub fn stays_as_it_is(path: &str)
    requires absolute { IsAbsolute path.now }
    requires dotless { lacks_dot_segments path.now ≡ true }
    ensures { remove_dot_segments path.now ≡ path.now }
{
    laws::paths_without_dot_segments_are_left_as_they_are();
}

/// A caller that keeps a folder without its dot segments proves that each path in it comes to the
/// same.
pub fn folder_kept_without_dots(folder: &str, name: &str)
    requires absolute { IsAbsolute folder.now }
    requires folder { EndsInSlash folder.now }
    ensures { remove_dot_segments (folder.now ++ name.now)
        ≡ remove_dot_segments (remove_dot_segments folder.now ++ name.now) }
{
    laws::leading_dots_may_be_removed_first();
}

/// A caller that keeps a base without its dot segments proves that its folder is what it would be
/// without them.
pub fn folder_of_a_kept_base(base: &str)
    requires { IsAbemptyPath base.now }
    ensures { directory (remove_dot_segments base.now)
        ≡ remove_dot_segments (directory base.now) }
{
    laws::taking_directories_and_removing_dots_swap();
}

/// A caller that writes the loop of section 5.2.4 with buffers of its own proves that the input is
/// empty after one turn for each byte of the path, and one more.
pub fn own_loop_ends(path: &str)
    ensures { (run (length path.now + 1)
        (record { input = path.now; output = []; underflowed = false })).input ≡ [] }
{
    laws::removing_dot_segments_reads_the_whole_path();
}
