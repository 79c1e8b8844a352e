// Why a figure and a word agree or do not: what is asked of the word, and the reason that is told. The definitions and their laws stand in specs/.
#![tactic(auto)]
