// The archive's version. It is not the number of a refusal.
ghost use Rattle.std.specs.Prelude.{◌≡◌};
ghost use Rattle.cart_abi.specs.Version.{version};

pub fn gbasave_version() -> u32
    ensures { result ≡ version }
{
    700
}
