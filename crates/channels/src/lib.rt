// Which frequencies are legal: the channels of a band and, in VOR and ILS words under nodata, whatever the digits can say.
#![tactic(auto)]

ghost use Rattle.std.specs.Prelude.{◌≡◌};
ghost use Rattle.channels.specs.Channels.{is_ils, is_vor, is_mls, is_channel, must_be_channel, legal_frequency};

use frequencies::Band;
use statuses::Status;

// Whether a frequency, in tens of kHz, is one of the forty of ILS.
fn is_ils(frequency: u32) -> bool
    ensures { result ≡ is_ils frequency }
{
    (10810 <= frequency)
        & ((frequency <= 11195) & ((frequency % 5 == 0) & (frequency / 10 % 2 == 1)))
}

// Whether it is a VOR frequency: none of these forty.
fn is_vor(frequency: u32) -> bool
    ensures { result ≡ is_vor frequency }
{
    (10800 <= frequency) & ((frequency <= 11795) & ((frequency % 5 == 0) & !is_ils(frequency)))
}

// Whether it is one of the two hundred of MLS.
fn is_mls(frequency: u32) -> bool
    ensures { result ≡ is_mls frequency }
{
    (503100 <= frequency) & ((frequency <= 509070) & (frequency % 30 == 0))
}

// Whether it is a channel of its band.
fn is_channel(band: Band, frequency: u32) -> bool
    ensures { result ≡ is_channel band frequency }
{
    match band {
        Band::Vor => is_vor(frequency),
        Band::Ils => is_ils(frequency),
        Band::Mls => is_mls(frequency),
    }
}

// Whether a frequency must be a channel of its band: in MLS words always, else where it is read.
fn must_be_channel(band: Band, status: Status) -> bool
    ensures { result ≡ must_be_channel band status }
{
    match band {
        Band::Vor | Band::Ils => matches!(status, Status::Test | Status::Ready),
        Band::Mls => true,
    }
}

// Whether a frequency, in tens of kHz, is legal in its band under a status.
pub fn is_legal_frequency(band: Band, status: Status, frequency: u32) -> bool
    ensures { result ≡ legal_frequency band status frequency }
{
    let must = must_be_channel(band, status);
    (must & is_channel(band, frequency)) | (!must & frequencies::is_expressible(band, frequency))
}
