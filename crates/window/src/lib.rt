// The machine's ROM window (PROTOCOL 4, 'Machine end'): addresses that no load and no parameter block may touch.
#![tactic(auto)]

ghost use Rattle.std.specs.Prelude.{◌≡◌};
ghost use Rattle.window.specs.Window.{none, allowed, touches};

// The number of addresses, which `directory` has too: a crate below both for one number is no plainer.
const ADDRESSES: u64 = 4294967296;

// V bytes from address W on; none if V is 0.
#[repr(C)]
#[derive(Clone, Copy)]
pub struct Window {
    pub start: u64,
    pub length: u64,
}

impl Window {
    // No window.
    pub fn none() -> Window
        ensures { result ≡ none }
    {
        Window {
            start: 0,
            length: 0,
        }
    }

    // There is no window, or it ends within the address range.
    pub fn allowed(self) -> bool
        ensures { result ≡ allowed self }
    {
        self.length == 0 || self.start.saturating_add(self.length) <= ADDRESSES
    }

    // The window touches n bytes from an address on: the later of the two starts lies in both. Neither end is reckoned, as
    // it may lie past the last number.
    #[tactic(auto, unfolding(crate::specs::Window::touches))]
    pub fn touches(self, address: usize, n: usize) -> bool
        ensures { result ≡ touches self address n }
    {
        if self.length < 1 || n < 1 {
            return false;
        }
        let at = address as u64;
        if self.start < at {
            return at - self.start < self.length;
        }
        self.start - at < n as u64
    }
}
