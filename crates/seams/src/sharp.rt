// Which edges stay sharp.
ghost use Rattle.std.specs.Prelude.{◌≡◌, ◌<◌, length};
ghost use Rattle.seams.specs.Internal.Seams.{stays_sharp, any_sharp};

// Whether an edge of the cage is still an inner crease at a level.
pub fn stays_sharp(creases: &[u8], level: usize, edge: usize) -> bool
    requires { edge < length creases.now }
    ensures { result ≡ stays_sharp creases.now level edge }
{
    level < usize::from(creases[edge])
}

// Whether any is.
pub fn any_sharp(creases: &[u8], level: usize) -> bool
    ensures { result ≡ any_sharp creases.now level }
{
    creases.iter().any(|crease| level < usize::from(*crease))
}
