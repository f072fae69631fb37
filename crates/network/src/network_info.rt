// The network, after network_info.rs: indexes and f. The keys stay outside; of the own one it is known whether it is there.
ghost use Rattle.std.specs.Prelude.{◌≡◌};
ghost use Rattle.network.specs.Network.{is_validator, is_node_validator, num_correct, Network};

// That its numbers are in range, `Network`, is a fact of clauses and not of the type: `state::words::net_of` asks its callers for a header's length
// alone, and `is_validator` asks for nothing. In the type the fact would ask more of both.
#[derive(Clone, Copy)]
pub struct NetworkInfo {
    pub num_nodes: usize,
    // As given to create, and not computed from the number of nodes.
    pub num_faulty: usize,
    // `num_nodes` stands for an observer.
    pub our_id: usize,
    // The node holds its secret key share.
    pub has_key: bool,
}

impl NetworkInfo {
    // Whether this node takes part in the consensus itself. If not, it is an observer.
    pub fn is_validator(self) -> bool
        ensures { result ≡ is_validator self }
    {
        self.our_id < self.num_nodes
    }

    // Whether the given node takes part in the consensus.
    pub fn is_node_validator(self, id: u64) -> bool
        ensures { result ≡ is_node_validator self id }
    {
        id < self.num_nodes as u64
    }

    // The number N − f of correct nodes.
    pub fn num_correct(self) -> usize
        requires { Network self }
        ensures { result ≡ num_correct self }
    {
        self.num_nodes - self.num_faulty
    }
}
