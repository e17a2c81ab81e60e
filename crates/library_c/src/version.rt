// The version of the tables' layout, as a symbol of the archive: the header and the Rust side refer to it by its name, so that a program
// does not link with an archive of another layout.

ghost use Rattle.std.specs.Prelude.{◌≡◌};
ghost use Rattle.library_c.specs.Layout.{layout_version};

// A wrong program that the contract rules out: one that gives an earlier layout's number.
pub fn silkendoz_layout_4() -> u64
    ensures { result ≡ layout_version }
{
    4
}
