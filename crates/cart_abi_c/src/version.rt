// The archive's version. It is not the number of a refusal.
ghost use Rattle.std.specs.Prelude.{◌≡◌};
ghost use Rattle.cart_abi.specs.Version.{version};

#[unsafe(no_mangle)]
pub extern "C" fn gbasave_version() -> u32
    ensures { result ≡ version }
{
    cart_abi::gbasave_version()
}
