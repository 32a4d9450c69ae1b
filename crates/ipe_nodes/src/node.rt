ghost use Rattle.std.specs.Prelude.{◌≡◌};
ghost use Rattle.ipe_nodes.specs.Nodes.{leaf_of, node_of, policy_node};

use ipe_policy::Name;
use line_words::cut_at;

// The files in a policy's folder.
#[derive(Clone, Copy, Debug, PartialEq, Eq)]
pub(crate) enum Leaf {
    Pkcs7,
    Policy,
    Name,
    Version,
    Active,
    Update,
    Delete,
}

// The files by which an administrator acts.
#[derive(Debug, Drop)]
pub(crate) enum Node {
    NewPolicy,
    Enforce,
    SuccessAudit,
    OfPolicy(Name, Leaf),
}

impl Leaf {
    // The file that a word names in a policy's folder.
    #[tactic(auto, unfolding(crate::specs::Nodes::leaf_of))]
    fn read(word: &[u8]) -> Option<Leaf>
        ensures { result ≡ leaf_of word.now }
    {
        if word == b"pkcs7".as_slice() {
            Some(Leaf::Pkcs7)
        } else if word == b"policy".as_slice() {
            Some(Leaf::Policy)
        } else if word == b"name".as_slice() {
            Some(Leaf::Name)
        } else if word == b"version".as_slice() {
            Some(Leaf::Version)
        } else if word == b"active".as_slice() {
            Some(Leaf::Active)
        } else if word == b"update".as_slice() {
            Some(Leaf::Update)
        } else if word == b"delete".as_slice() {
            Some(Leaf::Delete)
        } else {
            None
        }
    }
}

impl Node {
    // The node of a path.
    #[tactic(auto, unfolding(crate::specs::Nodes::node_of))]
    pub(crate) fn read(path: &[u8]) -> Option<Node>
        ensures { result ≡ node_of path.now }
    {
        if path == b"new_policy".as_slice() {
            Some(Node::NewPolicy)
        } else if path == b"enforce".as_slice() {
            Some(Node::Enforce)
        } else if path == b"success_audit".as_slice() {
            Some(Node::SuccessAudit)
        } else {
            Node::of_policy(path.strip_prefix(b"policies/")?)
        }
    }

    // The node of NAME/LEAF.
    fn of_policy(rest: &[u8]) -> Option<Node>
        ensures { result ≡ policy_node rest.now }
    {
        let (name, word) = cut_at(rest, b'/');
        let name = Name::read(name)?;
        Some(Node::OfPolicy(name, Leaf::read(word)?))
    }
}
