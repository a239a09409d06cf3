// The names that a depot in memory was asked for.
ghost use Rattle.std.specs.Prelude.{◌≡◌, [], ◌∷◌, ◌++◌, map, Some, IsTrue, string_bytes};
ghost use Rattle.sk_edge.specs.Asked.{Asks};

use std::alloc::Global;

/// Names in turn, as long as there is memory to keep them.
#[derive(Drop)]
pub struct Names {
    names: Vec<String>,
    are_whole: bool,
}

// Keeps one more name, where there is memory.
fn push_name(names: &mut Vec<String>, name: &str) -> bool
    ensures { IsTrue result → map string_bytes names.new.items ≡ map string_bytes names.old.items ++ (name.now ∷ []) }
{
    match String::from_str(*names.allocator(), name) {
        Ok(text) => names.push(text).is_ok(),
        Err(_) => false,
    }
}

impl Names {
    ghost use Rattle.sk_edge.specs.Names.{told};

    pub fn new(alloc: Global) -> Names
        ensures { told result ≡ Some [] }
    {
        Names {
            names: Vec::new(alloc),
            are_whole: true,
        }
    }

    pub fn add(&mut self, name: &str)
        ensures { Asks (told self.old) (told self.new) (name.now ∷ []) }
    {
        if self.are_whole {
            self.are_whole = push_name(&mut self.names, name);
        }
    }
}
