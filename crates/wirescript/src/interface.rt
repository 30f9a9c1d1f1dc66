// The number of the interface that a host links against.
ghost use Rattle.std.specs.Prelude.{◌≡◌};

// The number stands in the name, so that a host crate that was written for other signatures doesn't link. It rises with
// every change of an exported function's parameters or answer, here, in rust/wirescript_format/src/interface.rs and in
// c/wirescript.h.
#[unsafe(no_mangle)]
pub extern "C" fn wirescript_interface_5() -> u64
    ensures { result ≡ 5 }
{
    5
}
