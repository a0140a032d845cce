ghost use Rattle.std.specs.Prelude.{◌≡◌, ◌≢◌, ◌++◌, IfSome, IfNone};
ghost use Rattle.kept_image.specs.Faults.{HasNoTitle};
ghost use Rattle.kept_image.specs.ImageText.{title, title_line};
ghost use Rattle.kept_image.specs.Meaning.{body_limit};
ghost use Rattle.kept_image.specs.declared.version.Version.{Version as Named};

use crate::words::is_word;
use far_base::BODY_LIMIT;
use far_text::Lines;

/// The greatest number of bytes of a body in an image of the first version.
pub const FIRST_BODY_LIMIT: usize = 128;

/// The versions of the image text. They differ in their first line and in how long a body may be.
#[derive(Clone, Copy)]
pub(crate) enum Version {
    First,
    Second,
}

impl Version {
    pub(crate) fn body_limit(self) -> usize
        ensures { result ≡ body_limit self }
    {
        match self {
            Version::First => FIRST_BODY_LIMIT,
            Version::Second => BODY_LIMIT,
        }
    }

    /// The version that the first line names, without its end.
    fn from_line(line: &[u8]) -> Option<Self>
        ensures found { IfSome result (λ version. line.now ≡ title version) }
        ensures missing { IfNone result ((version : Named) → line.now ≢ title version) }
    {
        if is_word(line, b"far 2 image") {
            Some(Version::Second)
        } else if is_word(line, b"far 1 image") {
            Some(Version::First)
        } else {
            None
        }
    }

    /// The version that the next line, which is the first one, names.
    pub(crate) fn from_title(lines: &mut Lines) -> Option<Self>
        requires { lines.old.read ≡ 0 }
        ensures found { IfSome result (λ version. lines.old.rest.now ≡ title_line version ++ lines.new.rest.now) }
        ensures missing { IfNone result (HasNoTitle lines.old.rest.now) }
        ensures count { IfSome result (λ _. lines.new.read ≡ 1) }
    {
        Self::from_line(lines.next_line()?)
    }
}
