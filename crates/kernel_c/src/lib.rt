// What a board's C code links: kernel's three functions under C's names, with kernel's clauses. A slice comes as a pointer
// and a length behind it, as host/c/brombeertor.h has them.
#![tactic(auto)]

ghost use Rattle.std.specs.Prelude.{◌≡◌};
ghost use Rattle.layout.specs.Layout.{state_length};
ghost use Rattle.kernel.specs.Called.{Called, fresh_code, fresh_state};

// How many bytes a state has.
#[unsafe(no_mangle)]
pub extern "C" fn brombeertor_state_length() -> usize
    ensures { result ≡ state_length }
{
    kernel::brombeertor_state_length()
}

// Makes a fresh state: 0, and all bytes zero; of the wrong length 40, and nothing changes.
#[unsafe(no_mangle)]
pub extern "C" fn brombeertor_fresh(state: &mut [u8]) -> u32
    ensures { (result ≡ fresh_code state.old) × (state.new ≡ fresh_state state.old) }
{
    kernel::brombeertor_fresh(state)
}

// Carries out a request on a state: the code is returned and stands in the reply.
#[unsafe(no_mangle)]
pub extern "C" fn brombeertor_call(state: &mut [u8], request: &[u8], answer: &mut [u8]) -> u32
    ensures { Called state.old request.now answer.old result state.new answer.new }
{
    kernel::brombeertor_call(state, request, answer)
}
