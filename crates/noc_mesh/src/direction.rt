//! The directions in which links lead.
ghost use Rattle.std.specs.Prelude.{◌≡◌};
ghost use Rattle.noc_mesh.specs.Routes.{number_of};

/// Where a link leads from its node.
#[derive(Clone, Copy)]
pub enum Direction {
    /// To the next greater x.
    East,
    /// To the next smaller x.
    West,
    /// To the next smaller y.
    North,
    /// To the next greater y.
    South,
}

impl Direction {
    /// The number of a direction, by which the links of a node are numbered: 0 to 3.
    pub fn number(self) -> u16
        ensures { result ≡ number_of self }
    {
        match self {
            Direction::East => 0,
            Direction::West => 1,
            Direction::North => 2,
            Direction::South => 3,
        }
    }
}
