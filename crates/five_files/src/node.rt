ghost use Rattle.std.specs.Prelude.{◌≡◌};
ghost use Rattle.five_files.specs.Nodes.{number_of, node_at, is_dir, is_link, name_of, content_of, mode_of};

/// A node: the directory, or one of the files in it. `Times` is a symbolic link to `Hours`.
#[derive(Clone, Copy, Debug, PartialEq, Eq)]
pub enum Node {
    Directory,
    Readme,
    Licence,
    Hours,
    Times,
}

impl Node {
    /// The node of this number.
    pub fn at(number: u64) -> Option<Node>
        ensures { result ≡ node_at number }
    {
        match number {
            1 => Some(Node::Directory),
            2 => Some(Node::Readme),
            3 => Some(Node::Licence),
            4 => Some(Node::Hours),
            5 => Some(Node::Times),
            _ => None,
        }
    }

    /// Its number, which is also its handle.
    pub fn number(self) -> u64
        ensures { result ≡ number_of self }
    {
        match self {
            Node::Directory => 1,
            Node::Readme => 2,
            Node::Licence => 3,
            Node::Hours => 4,
            Node::Times => 5,
        }
    }

    /// Whether it is the directory.
    pub fn is_directory(self) -> bool
        ensures { result ≡ is_dir self }
    {
        self == Node::Directory
    }

    /// Whether it is the symbolic link.
    pub fn is_symlink(self) -> bool
        ensures { result ≡ is_link self }
    {
        self == Node::Times
    }

    /// Its name.
    pub fn name(self) -> &'static [u8]
        ensures { result.now ≡ name_of self }
    {
        match self {
            Node::Directory => b".",
            Node::Readme => b"readme",
            Node::Licence => b"licence",
            Node::Hours => b"hours",
            Node::Times => b"times",
        }
    }

    /// Its content: of the symbolic link the target.
    pub fn content(self) -> &'static [u8]
        ensures { result.now ≡ content_of self }
    {
        match self {
            Node::Directory => b"",
            Node::Readme => b"Three files to read.",
            Node::Licence => b"Copy them freely.",
            Node::Hours => b"9 to 5",
            Node::Times => b"hours",
        }
    }

    /// Its type and permissions: reading alone, and of the symbolic link all.
    pub fn mode(self) -> u32
        ensures { result ≡ mode_of self }
    {
        if self.is_directory() {
            0o040555
        } else if self.is_symlink() {
            0o120777
        } else {
            0o100444
        }
    }
}
