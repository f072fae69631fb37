// Collaborative threshold decryption, after threshold_decrypt.rs.
//
// Shares and the ciphertext are handles, and 0 stands for none: no Option, since a word of the state holds either (docs/STATE.md). Methods change an
// instance in place: it is 144 bytes long as measured, and the stack on a share's way should hold few of them. `net` and `proposer` go along as two
// plain values: there is no fact about both that a struct could keep.
#![tactic(auto)]

ghost use Rattle.std.specs.Prelude.{◌≡◌, ◌<◌};
ghost use Rattle.network.specs.Network.{Network};
ghost use Rattle.steps.specs.Written.{out_of, same_table, left, left_reading};
ghost use Rattle.steps.specs.Runs.{leaves};
ghost use Rattle.decryption.specs.declared.ThresholdDecrypt.{ThresholdDecrypt};
ghost use Rattle.decryption.specs.Decrypt.{new, is_sender, count_shares, set_ciphertext, is_share_valid, check_share, remove_invalid_shares, combine, start_decryption, try_output, store_share, handle_message};

use network::network_info::NetworkInfo;
use steps::kinds::{AnswerKind, Failure, FaultKind, MessageKind, Stop};
use steps::reader::Reader;
use steps::step::Writer;

#[derive(Clone, Copy, Default)]
pub struct ThresholdDecrypt {
    pub ciphertext: u64,
    // By sender. A table by index, for the Rust's map: memory is fixed, and the interface's limit of nodes is 16.
    pub shares: [u64; 16],
    // Whether the own share was sent.
    pub had_input: bool,
    // Whether the output was returned.
    pub terminated: bool,
}

// How many shares there are.
fn count(shares: &[u64; 16]) -> usize
    ensures { result ≡ count_shares shares.now }
{
    shares.iter().filter(|share| **share != 0).count()
}

// Asks for the plaintext. It changes no instance.
fn combine(reader: &mut Reader) -> Result<Option<u64>, Stop>
    ensures { (td : ThresholdDecrypt) → left_reading td result reader.new ≡ combine td reader.old }
{
    let (decrypted, plaintext) = reader.ask(AnswerKind::ContributionDecrypted)?;
    if decrypted == 0 {
        return Err(Stop::Failed(Failure::Decryption));
    }
    Ok(Some(plaintext))
}

impl ThresholdDecrypt {
    // An instance that waits for shares and a ciphertext.
    pub fn new() -> Self
        ensures { result ≡ new }
    {
        Self::default()
    }

    // Whether a node is among `sender_ids`, those that sent a share.
    pub fn is_sender(&self, sender: usize) -> bool
        requires { sender < 16 }
        ensures { result ≡ is_sender self.now sender }
    {
        self.shares[sender] != 0
    }

    // Sets the ciphertext, if there is none yet and it verifies: whether it does.
    pub fn set_ciphertext(
        &mut self,
        proposer: usize,
        ciphertext: u64,
        reader: &mut Reader,
    ) -> Result<bool, Stop>
        ensures { left_reading self.new result reader.new ≡ set_ciphertext proposer ciphertext self.old reader.old }
    {
        if self.ciphertext != 0 {
            return Err(Stop::Failed(Failure::MultipleInputs));
        }
        let (verifies, _) = reader.ask_about(AnswerKind::CiphertextVerifies, proposer)?;
        if verifies == 0 {
            return Ok(false);
        }
        self.ciphertext = ciphertext;
        Ok(true)
    }

    // Whether the share of this sender is valid. It is asked about once there is a ciphertext.
    fn is_share_valid(&self, sender: usize, reader: &mut Reader) -> Result<bool, Stop>
        ensures { left_reading self.now result reader.new ≡ is_share_valid sender self.now reader.old }
    {
        if self.ciphertext == 0 {
            return Ok(true);
        }
        let (verifies, _) = reader.ask_about(AnswerKind::ShareVerifies, sender)?;
        Ok(verifies != 0)
    }

    // Removes the share of this sender, if there is one and it is invalid, with a fault.
    fn check_share(
        &mut self,
        sender: usize,
        reader: &mut Reader,
        writer: &mut Writer,
    ) -> Result<(), Stop>
        requires { sender < 16 }
        ensures run { left self.new result reader.new writer.new ≡ leaves (out_of writer.old) (check_share sender self.old reader.old) }
        ensures table { same_table writer.old writer.new }
    {
        if self.is_sender(sender) && !self.is_share_valid(sender, reader)? {
            self.shares[sender] = 0;
            writer.fault(FaultKind::UnverifiedDecryptionShareSender, sender as u64, 0);
        }
        Ok(())
    }

    // Removes all shares that are invalid, by rising sender, with a fault for each.
    fn remove_invalid_shares(
        &mut self,
        reader: &mut Reader,
        writer: &mut Writer,
    ) -> Result<(), Stop>
        ensures run { left self.new result reader.new writer.new ≡ leaves (out_of writer.old) (remove_invalid_shares self.old reader.old) }
        ensures table { same_table writer.old writer.new }
    {
        for sender in 0..16 {
            self.check_share(sender, reader, writer)?;
        }
        Ok(())
    }

    // Sends the own share, and tries to combine. Starting and combining call each other, as in the Rust: each call sets a flag that
    // was not set.
    #[cycle(start_decryption_try_output)]
    pub fn start_decryption(
        &mut self,
        net: NetworkInfo,
        proposer: usize,
        reader: &mut Reader,
        writer: &mut Writer,
    ) -> Result<Option<u64>, Stop>
        requires { Network net }
        ensures run { left self.new result reader.new writer.new ≡ leaves (out_of writer.old) (start_decryption net proposer self.old reader.old) }
        ensures table { same_table writer.old writer.new }
    {
        if self.had_input {
            return Ok(None);
        }
        if self.ciphertext == 0 {
            return Err(Stop::Failed(Failure::Decryption));
        }
        self.remove_invalid_shares(reader, writer)?;
        self.had_input = true;
        if net.is_validator() && net.has_key {
            let (_, share) = reader.ask(AnswerKind::OwnDecryptionShare)?;
            writer.message(MessageKind::Share, proposer as u64, share);
            self.shares[net.our_id] = share;
        }
        self.try_output(net, proposer, reader, writer)
    }

    // Combines the shares, if there is a ciphertext and enough of them. Before that it makes sure that the own share was sent. A start from here
    // has no output, since `terminated` is set (law `start_quiet`).
    #[cycle(start_decryption_try_output)]
    fn try_output(
        &mut self,
        net: NetworkInfo,
        proposer: usize,
        reader: &mut Reader,
        writer: &mut Writer,
    ) -> Result<Option<u64>, Stop>
        requires { Network net }
        ensures run { left self.new result reader.new writer.new ≡ leaves (out_of writer.old) (try_output net proposer self.old reader.old) }
        ensures table { same_table writer.old writer.new }
    {
        if self.terminated || count(&self.shares) <= net.num_faulty || self.ciphertext == 0 {
            return Ok(None);
        }
        self.terminated = true;
        self.start_decryption(net, proposer, reader, writer)?;
        combine(reader)
    }

    // Keeps a share. A second one of a sender overwrites the first, and nothing is combined.
    fn store_share(
        &mut self,
        net: NetworkInfo,
        proposer: usize,
        sender: usize,
        share: u64,
        reader: &mut Reader,
        writer: &mut Writer,
    ) -> Result<Option<u64>, Stop>
        requires { Network net × (sender < net.num_nodes) }
        ensures run { left self.new result reader.new writer.new ≡ leaves (out_of writer.old) (store_share net proposer sender share self.old reader.old) }
        ensures table { same_table writer.old writer.new }
    {
        let old = self.shares[sender];
        self.shares[sender] = share;
        if old != 0 {
            writer.fault(FaultKind::MultipleDecryptionShares, sender as u64, 0);
            return Ok(None);
        }
        self.try_output(net, proposer, reader, writer)
    }

    // Handles a share that this sender sent. The caller has refused an unknown sender.
    pub fn handle_message(
        &mut self,
        net: NetworkInfo,
        proposer: usize,
        sender: usize,
        share: u64,
        reader: &mut Reader,
        writer: &mut Writer,
    ) -> Result<Option<u64>, Stop>
        requires { Network net × (sender < net.num_nodes) }
        ensures run { left self.new result reader.new writer.new ≡ leaves (out_of writer.old) (handle_message net proposer sender share self.old reader.old) }
        ensures table { same_table writer.old writer.new }
    {
        if self.terminated {
            return Ok(None);
        }
        if !self.is_share_valid(sender, reader)? {
            writer.fault(FaultKind::UnverifiedDecryptionShareSender, sender as u64, 0);
            return Ok(None);
        }
        self.store_share(net, proposer, sender, share, reader, writer)
    }
}
