// The words of a line.
ghost use Rattle.std.specs.Prelude.{◌<◌, length};
ghost use Rattle.std.specs.Option.{ForSome};

mod walk;

/// The words of a line that are to come: what is left of the line, and the column past its end.
#[derive(Clone, Copy)]
pub(crate) struct Words<'a> {
    rest: Option<&'a [u8]>,
    pub(crate) end: usize,
    ghost within: { ForSome rest (λ r. length r.now < end) },
}
