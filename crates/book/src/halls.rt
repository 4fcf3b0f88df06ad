// A hall and its book together: what sound and slips read, record by record.
ghost use Rattle.std.specs.Prelude.{◌≡◌, ◌+◌, ◌*◌, ◌≤◌, ◌<◌, length, get_or, is_some};
ghost use Rattle.std.specs.Option.{ForSome};
ghost use Rattle.rules.specs.Hall.{Carnet, View, BenchView, Till, Line, number, records};
ghost use Rattle.rules.specs.Records.{words, held, record_at};
ghost use Rattle.rules.specs.Sound.{fits};

use rules::Hall;

// A book of a hall: as long as the hall asks, which is small enough to be counted.
#[derive(Clone, Copy)]
pub struct HallBook<'a> {
    pub hall: Hall,
    pub pages: &'a [u32],
    pub ghost customers: { hall.customers ≤ 64 },
    pub ghost benches: { hall.benches ≤ 64 },
    pub ghost long: { length pages.now ≡ words * records hall },
}

impl<'a> HallBook<'a> {
    // None for a book of another length.
    #[tactic(auto, unfolding(rules::specs::Sound::fits))]
    pub fn of(hall: Hall, pages: &'a [u32]) -> Option<HallBook<'a>>
        requires { (hall.customers ≤ 64) × (hall.benches ≤ 64) }
        ensures { (is_some result ≡ fits hall pages.now) × ForSome result (λ b. (b.hall ≡ hall) × (b.pages ≡ pages.entry)) }
    {
        if pages.len() != super::book_words(hall) {
            return None;
        }
        Some(HallBook { hall, pages })
    }

    // ---- a record, read

    pub fn record(self, k: usize) -> &'a [u32]
        requires { k < records self.hall }
        ensures { result.now ≡ record_at k self.entry.pages.now }
    {
        super::record_at(self.pages, k)
    }

    pub fn word(self, k: usize, w: usize) -> u32
        requires { (k < records self.hall) × (w < words) }
        ensures { result ≡ get_or (record_at k self.entry.pages.now) w 0 }
    {
        super::word_of(self.pages, k, w)
    }

    pub fn tokens(self, k: usize) -> &'a [u32]
        requires { k < records self.hall }
        ensures { result.now ≡ held (record_at k self.entry.pages.now) }
    {
        super::tokens_at(self.pages, k)
    }

    // ---- where each record stands

    pub fn carnet(self, c: u8) -> usize
        ensures { result ≡ number self.entry.hall (Carnet c) }
    {
        super::carnet(self.hall, c)
    }

    pub fn view(self, c: u8) -> usize
        ensures { result ≡ number self.entry.hall (View c) }
    {
        super::view(self.hall, c)
    }

    pub fn bench_view(self, m: u8) -> usize
        ensures { result ≡ number self.entry.hall (BenchView m) }
    {
        super::bench_view(self.hall, m)
    }

    pub fn till(self, m: u8) -> usize
        ensures { result ≡ number self.entry.hall (Till m) }
    {
        super::till(self.hall, m)
    }

    pub fn line(self, m: u8, c: u8) -> usize
        ensures { result ≡ number self.entry.hall (Line m c) }
    {
        super::line(self.hall, m, c)
    }

    pub fn records(self) -> usize
        ensures { result ≡ records self.entry.hall }
    {
        super::records(self.hall)
    }
}
