//! What a frame's pieces and counters refer to.

/// The addresses of the lookup stub and of the private area.
#[derive(Clone, Copy, Drop)]
pub struct Anchors {
    pub stub: u32,
    pub private: u32,
}

/// Where the two counters of a branch or a loop are.
#[derive(Clone, Copy, Drop)]
pub struct Ways {
    pub taken: u32,
    pub passed: u32,
}
